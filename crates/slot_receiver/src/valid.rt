// A stored number that no call could have left counts as a valid one.
ghost use Rattle.std.specs.Prelude.{◌≡◌, ℤ};
ghost use Rattle.dsp_types.specs.Ints.{eq_z};
ghost use Rattle.listener.specs.Signal.{Signal};
ghost use Rattle.slot_receiver.specs.Receiver.{valid_time, valid_count, valid};
ghost use Rattle.slot_receiver.specs.View.{receiver_from};

use crate::SlotReceiver;
use crate::clock::is_outside;
use crate::window::LOST;
use dsp_types::{LAST_COUNTER, SampleCount, TdmaTime};

// How far from 0 a stored reference time and ready time may be, and the last counter that may be expected: any other number
// counts as 0.
pub(crate) const FAR_REFERENCE: u64 = 549_755_813_888;

pub(crate) const FAR_READY: u64 = 1_099_511_627_775;

const LAST_NEXT: i64 = LAST_COUNTER + 1;

// Stored numbers are read as 0 outside of their range here, in `valid_count` and in rx_slot's `valid_closing`. One function for the
// three would take both ends of each, two of which are magnitudes: no shorter, and less like the definitions.
#[tactic(auto, unfolding(crate::specs::Receiver::valid_time))]
pub(crate) fn valid_time(t: SampleCount, most: u64) -> SampleCount
    ensures { result.0 ≡ valid_time most t.0 }
{
    if dsp_types::unsigned(t.0) <= most {
        t
    } else {
        SampleCount(0)
    }
}

// Whether a stored time is read as it is.
pub(crate) fn is_valid_time(t: SampleCount, most: u64) -> bool
    ensures { result ≡ eq_z (valid_time most t.0) t.0 }
{
    valid_time(t, most) == t
}

// A counter below 0 or above the last that may be expected counts as 0.
#[tactic(auto, unfolding(crate::specs::Receiver::valid_count))]
pub fn valid_count(count: SampleCount) -> SampleCount
    ensures { result.0 ≡ valid_count count.0 }
{
    if is_outside(count.0, 0, LAST_NEXT) {
        SampleCount(0)
    } else {
        count
    }
}

impl SlotReceiver {
    // The numbers that a sample works with.
    #[tactic(auto, using(crate::proofs::Doors::valid_as), unfolding(crate::specs::View::receiver_from, crate::specs::Receiver::with_clock, crate::specs::Receiver::with_lock))]
    pub(crate) fn make_valid(&mut self)
        ensures { (next : ℤ) (s : Signal) → receiver_from self.new next s ≡ valid (receiver_from self.old next s) }
    {
        self.reference_time = valid_time(self.reference_time, FAR_REFERENCE);
        self.slot_ready_time = valid_time(self.slot_ready_time, FAR_READY);
        self.current_slot = TdmaTime(self.current_slot.to_int());
        self.slots_since_last_valid_burst = LOST.min(self.slots_since_last_valid_burst);
    }
}
