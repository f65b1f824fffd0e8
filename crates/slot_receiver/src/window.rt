// A window closes: its bits, the burst in them, and when the next one closes.
ghost use Rattle.std.specs.Prelude.{◌≡◌, List, ℤ};
ghost use Rattle.dsp_types.specs.declared.ComplexSample.{ComplexSample};
ghost use Rattle.listener.specs.Signal.{Signal};
ghost use Rattle.listener.specs.View.{signal_in};
ghost use Rattle.slot_receiver.specs.Receiver.{process_past_samples, processed, track, schedule, close_window};
ghost use Rattle.slot_receiver.specs.View.{mode_of, clock_of, receiver_from};
ghost use Rattle.slot_receiver.specs.Bounds.{Closing, Scheduled};

use crate::search::averaged;
use crate::{Mode, SlotReceiver};
use burst_finder::SlotType;
use dsp_types::SampleCount;
use listener::{Past, Window};
use rx_slot::{RxSlot, checked_burst};

// So many slots in a row without a training sequence, and the receiver searches again.
pub(crate) const LOST: u32 = 100;

impl SlotReceiver {
    // Hand the current slot over. The hundredth in a row without a training sequence returns to search.
    fn downlink_window(&mut self, past: Past, counter: SampleCount)
        requires { Closing (clock_of self.old) self.old.slots_since_last_valid_burst × (mode_of self.old.mode ≡ Mode.Dl) }
        ensures { (next : ℤ) (inputs : List ComplexSample) → receiver_from self.new next (signal_in inputs past.entry) ≡ process_past_samples Mode.Dl (receiver_from self.old next (signal_in inputs past.entry)) counter.0 }
    {
        let window = past.read_window(Window::Slot);
        let full = checked_burst(SlotType::Dl, &window.bits);
        self.demodulated_slot.time = self.current_slot;
        self.demodulated_slot.closing_counter = counter;
        self.demodulated_slot.full = full;
        self.full_bits = window.bits;
        self.demodulated_slot_available = true;
        if full.train_type != 0 {
            self.slots_since_last_valid_burst = 0;
            self.averaged_timing_error = averaged(self.averaged_timing_error, window.timing);
            return;
        }
        self.slots_since_last_valid_burst += 1;
        if LOST <= self.slots_since_last_valid_burst {
            self.mode = Mode::DlUnsynchronized.number();
        }
    }

    // Hand the slot over that the uplink numbers 2 less, with bursts in the whole slot and in its halves.
    fn uplink_window(&mut self, past: Past, counter: SampleCount)
        requires { Closing (clock_of self.old) self.old.slots_since_last_valid_burst }
        ensures { (next : ℤ) (inputs : List ComplexSample) → receiver_from self.new next (signal_in inputs past.entry) ≡ process_past_samples Mode.Ul (receiver_from self.old next (signal_in inputs past.entry)) counter.0 }
    {
        let whole = past.read_window(Window::Slot);
        let first = past.read_window(Window::FirstHalf);
        let second = past.read_window(Window::SecondHalf);
        self.demodulated_slot = RxSlot {
            time: self.current_slot.add_timeslots(-2),
            closing_counter: counter,
            full: checked_burst(SlotType::UlFull, &whole.bits),
            subslot1: checked_burst(SlotType::UlSub, &first.bits[..254]),
            subslot2: checked_burst(SlotType::UlSub, &second.bits[..254]),
        };
        self.full_bits = whole.bits;
        self.subslot1_bits = first.bits;
        self.subslot2_bits = second.bits;
        self.demodulated_slot_available = true;
    }

    #[tactic(auto, unfolding(crate::specs::View::receiver_from, crate::specs::Receiver::process_past_samples, crate::specs::Receiver::processed))]
    fn process_past_samples(&mut self, past: Past, counter: SampleCount)
        requires { Closing (clock_of self.old) self.old.slots_since_last_valid_burst }
        ensures { (next : ℤ) (inputs : List ComplexSample) → receiver_from self.new next (signal_in inputs past.entry) ≡ processed (receiver_from self.old next (signal_in inputs past.entry)) counter.0 }
    {
        match self.mode() {
            Mode::Idle => {}
            Mode::DlUnsynchronized => self.search_window(past),
            Mode::Dl => self.downlink_window(past, counter),
            Mode::Ul => self.uplink_window(past, counter),
        }
    }

    // Timing that seems off by more than half a sample moves the reference time.
    fn track(&mut self)
        requires { Scheduled (clock_of self.old) }
        ensures { (next : ℤ) (s : Signal) → receiver_from self.new next s ≡ track (receiver_from self.old next s) }
    {
        if 0.5 < self.averaged_timing_error {
            self.reference_time = self.reference_time.plus(1);
            self.averaged_timing_error -= 1.0;
        }
        if self.averaged_timing_error < -0.5 {
            self.reference_time = self.reference_time.minus(1);
            self.averaged_timing_error += 1.0;
        }
    }

    // When the next window closes. Search windows overlap.
    fn schedule(&mut self)
        requires { Scheduled (clock_of self.old) }
        ensures { (next : ℤ) (s : Signal) → receiver_from self.new next s ≡ schedule (mode_of self.old.mode) (receiver_from self.old next s) }
    {
        match self.mode() {
            Mode::Idle => {}
            Mode::DlUnsynchronized => self.slot_ready_time = self.slot_ready_time.plus(400),
            Mode::Dl => {
                self.track();
                self.add_slots(1);
            }
            Mode::Ul => self.add_slots(1),
        }
    }

    // A window closes: it is read, and the next one is set.
    #[tactic(auto, unfolding(crate::specs::View::receiver_from, crate::specs::Receiver::close_window))]
    pub(crate) fn close_window(&mut self, past: Past, counter: SampleCount)
        requires { Closing (clock_of self.old) self.old.slots_since_last_valid_burst }
        ensures { (next : ℤ) (inputs : List ComplexSample) → receiver_from self.new next (signal_in inputs past.entry) ≡ close_window (receiver_from self.old next (signal_in inputs past.entry)) counter.0 }
    {
        self.process_past_samples(past, counter);
        self.schedule();
    }
}
