// A new receiver.
ghost use Rattle.std.specs.Prelude.{◌≡◌, pos};
ghost use Rattle.listener.specs.Signal.{unheard};
ghost use Rattle.slot_receiver.specs.Receiver.{new};
ghost use Rattle.slot_receiver.specs.View.{mode_number, receiver_from};

use crate::clock::ready_time;
use crate::{Mode, SlotReceiver};
use dsp_types::{SampleCount, TdmaTime};
use rx_slot::{RxSlot, no_burst};

impl SlotReceiver {
    #[tactic(auto, using(crate::proofs::Views::mode_stored, rx_slot::proofs::Laws::no_stored), unfolding(crate::specs::View::receiver_from, crate::specs::Receiver::new, crate::specs::Receiver::set_slot, rx_slot::specs::Slots::no_slot))]
    pub fn new(initial_mode: Mode) -> SlotReceiver
        ensures receiver { receiver_from result (pos 0) unheard ≡ new initial_mode }
        ensures mode { result.mode ≡ mode_number initial_mode }
    {
        let first = TdmaTime::default();
        let empty = no_burst();
        SlotReceiver {
            mode: initial_mode.number(),
            reference_time: SampleCount(0),
            // The ready time is that of slot 0.
            slot_ready_time: ready_time(initial_mode, SampleCount(0), first),
            current_slot: first,
            averaged_timing_error: 0.0,
            slots_since_last_valid_burst: 0,
            demodulated_slot_available: false,
            demodulated_slot: RxSlot {
                time: first,
                closing_counter: SampleCount(0),
                full: empty,
                subslot1: empty,
                subslot2: empty,
            },
            full_bits: [0; 510],
            subslot1_bits: [0; 510],
            subslot2_bits: [0; 510],
        }
    }
}
