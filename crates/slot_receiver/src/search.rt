// A search window closes.
ghost use Rattle.std.specs.Prelude.{◌≡◌, List, ◌*◌, ◌^◌, ◌≤◌, ℤ, pos, ◌+ℤ◌, ◌-ℤ◌};
ghost use Rattle.dsp_types.specs.declared.ComplexSample.{ComplexSample};
ghost use Rattle.timing.specs.Tracking.{averaged_of};
ghost use Rattle.listener.specs.Signal.{Signal};
ghost use Rattle.listener.specs.View.{signal_in};
ghost use Rattle.slot_receiver.specs.Receiver.{with_slot, emptied, process_past_samples};
ghost use Rattle.slot_receiver.specs.View.{mode_of, clock_of, receiver_from};
ghost use Rattle.slot_receiver.specs.Bounds.{Within, Closing};

use crate::{Mode, SlotReceiver};
use burst_finder::MAX_ERRS;
use dsp_types::{SampleCount, TdmaTime};
use listener::{Past, Window};
use rx_slot::no_burst;

// The slot that is current at a find is the one before slot 0.
const FIRST_SLOT: i32 = 0;

const SLOT_AT_FIND: i32 = FIRST_SLOT - 1;

// The reference time of a burst found at this place of a search window, one slot before the burst began: 1018 samples
// before the window's close, less those of (510 - 2 - place) / 2 symbols.
fn found_time(ready: SampleCount, place: usize) -> SampleCount
    requires { Within (2 ^ 38) ready.0 × (place ≤ 256) }
    ensures { result.0 ≡ ready.0 -ℤ pos 2034 +ℤ pos (place * 2) }
{
    ready.minus(2034).plus((place * 2) as i64)
}

// The averaged timing error after a slot with this symbol timing, which is to stay near 2: half a symbol of margin
// in both directions.
pub(crate) fn averaged(error: f32, symbol_timing: f32) -> f32
    ensures { result ≡ averaged_of error symbol_timing }
{
    error + (symbol_timing - 2.0 - error) * 0.1
}

impl SlotReceiver {
    // The slot that was handed over last has this number, and no burst is in the whole of it.
    #[tactic(auto, using(rx_slot::proofs::Laws::no_stored), unfolding(crate::specs::View::receiver_from, crate::specs::Receiver::with_slot, crate::specs::Receiver::emptied, rx_slot::specs::Slots::with_views))]
    fn empty(&mut self, time: TdmaTime)
        ensures { (next : ℤ) (s : Signal) → receiver_from self.new next s ≡ with_slot (receiver_from self.old next s) (emptied (receiver_from self.old next s).slot time.0) }
    {
        self.demodulated_slot.time = time;
        self.demodulated_slot.full = no_burst();
    }

    // Look for a synchronization sequence behind its nominal place, so that its burst can still be demodulated.
    pub(crate) fn search_window(&mut self, past: Past)
        requires { Closing (clock_of self.old) self.old.slots_since_last_valid_burst × (mode_of self.old.mode ≡ Mode.DlUnsynchronized) }
        ensures { (next c : ℤ) (inputs : List ComplexSample) → receiver_from self.new next (signal_in inputs past.entry) ≡ process_past_samples Mode.DlUnsynchronized (receiver_from self.old next (signal_in inputs past.entry)) c }
    {
        let window = past.read_window(Window::Slot);
        let found = burst_finder::find_sync(&window.bits);
        if MAX_ERRS < found.dist {
            self.empty(self.demodulated_slot.time);
            return;
        }
        // The step to the next slot makes the current one 0, and the next sample skips that: the burst found is slot 1.
        let reference = found_time(self.slot_ready_time, found.pos);
        self.empty(TdmaTime::from_int(FIRST_SLOT));
        self.reference_time = reference;
        self.averaged_timing_error = averaged(0.0, window.timing);
        self.slots_since_last_valid_burst = 0;
        self.set_slot(TdmaTime::from_int(SLOT_AT_FIND));
        self.mode = Mode::Dl.number();
    }
}
