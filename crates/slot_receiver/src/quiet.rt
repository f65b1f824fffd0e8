// Samples that are only kept, between windows.
ghost use Rattle.std.specs.Prelude.{◌≡◌};
ghost use Rattle.slot_receiver.specs.Quiet.{stands, quiet_samples};
ghost use Rattle.slot_receiver.specs.View.{clock_of};

use crate::SlotReceiver;
use crate::clock::is_outside;
use crate::valid::{FAR_READY, FAR_REFERENCE, is_valid_time};
use crate::window::LOST;
use dsp_types::{LAST_COUNTER, SLOTS, SampleCount};

// No more samples than this stand before a window's close, two slots: further off, slots are skipped. Behind LAST_QUIET there are as
// many counters.
const MOST_QUIET: i64 = 2040;

const LAST_QUIET: i64 = LAST_COUNTER - MOST_QUIET;

impl SlotReceiver {
    // Whether the stored numbers are read as they are.
    #[tactic(auto, unfolding(crate::specs::Quiet::stands))]
    fn stands(&self) -> bool
        ensures { result ≡ stands (clock_of self.now) self.now.slots_since_last_valid_burst }
    {
        is_valid_time(self.reference_time, FAR_REFERENCE)
            && is_valid_time(self.slot_ready_time, FAR_READY)
            && self.current_slot.0 < SLOTS
            && self.slots_since_last_valid_burst <= LOST
    }

    // How many samples from this counter on are only kept, as far as it can be told at once.
    pub fn quiet_samples(&self, counter: SampleCount) -> usize
        ensures { result ≡ quiet_samples (clock_of self.now) self.now.slots_since_last_valid_burst counter.0 }
    {
        if !self.stands() {
            return 0;
        }
        if is_outside(counter.0, 0, LAST_QUIET) {
            return 0;
        }
        let left = self.slot_ready_time.plus(16).since(counter);
        if is_outside(left, 1, MOST_QUIET) {
            return 0;
        }
        dsp_types::unsigned(left) as usize
    }
}
