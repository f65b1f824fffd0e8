// Slot timing: which slot is current, and when its window closes.
ghost use Rattle.std.specs.Prelude.{◌≡◌, ◌-◌, ◌*◌, ◌^◌, ◌<◌, ◌||◌, ℤ, pos, ◌+ℤ◌, ◌-ℤ◌};
ghost use Rattle.std.specs.Int.Signed.{lt_z};
ghost use Rattle.dsp_types.specs.Refusals.{counters};
ghost use Rattle.dsp_types.specs.Times.{slots};
ghost use Rattle.listener.specs.Signal.{Signal};
ghost use Rattle.slot_receiver.specs.Receiver.{slot_ready_from_begin, set_slot, add_slots, with_clock, far, slots_to_skip, skip_if};
ghost use Rattle.slot_receiver.specs.View.{mode_of, clock_of, receiver_from};
ghost use Rattle.slot_receiver.specs.Bounds.{Within};

use crate::{Mode, SlotReceiver};
use dsp_types::{SampleCount, TdmaTime};

// Samples from the beginning of a slot to where it is ready to be demodulated.
#[tactic(auto, unfolding(crate::specs::Receiver::slot_ready_from_begin))]
fn slot_ready_from_begin(mode: Mode) -> i64
    ensures { result ≡ slot_ready_from_begin mode }
{
    match mode {
        Mode::Idle | Mode::DlUnsynchronized | Mode::Dl => 1018,
        Mode::Ul => 1020,
    }
}

// When the slot with this number is ready.
pub(crate) fn ready_time(mode: Mode, reference: SampleCount, slot: TdmaTime) -> SampleCount
    requires { Within (2 ^ 40) reference.0 × (slot.0 < slots) }
    ensures { result.0 ≡ reference.0 +ℤ pos (slot.0 * 1020) +ℤ slot_ready_from_begin mode }
{
    reference
        .plus(slot.start() as i64)
        .plus(slot_ready_from_begin(mode))
}

// The counter less the filter's delay, less the ready time.
pub(crate) fn tdiff(counter: SampleCount, ready: SampleCount) -> i64
    requires { Within counters counter.0 × Within (2 ^ 40) ready.0 }
    ensures { result ≡ counter.0 -ℤ pos 16 -ℤ ready.0 }
{
    counter.minus(16).since(ready)
}

// Whether a number is below the first or above the last of a range.
pub(crate) fn is_outside(n: i64, first: i64, last: i64) -> bool
    ensures { result ≡ (lt_z n first || lt_z last n) }
{
    !(first..=last).contains(&n)
}

// Lost samples, or another reference time, can put the ready time into the past or far into the future.
#[tactic(auto, unfolding(crate::specs::Receiver::far))]
fn is_far(t: i64) -> bool
    ensures { result ≡ far t }
{
    is_outside(t, -2040, 0)
}

// How many slots the counter is past the ready time, rounded up.
fn slots_to_skip(t: i64) -> i32
    requires { Within (2 ^ 41 - 2 ^ 34) t }
    ensures { result ≡ slots_to_skip t }
{
    (0 - dsp_types::div_euclid(0 - t, 1020)) as i32
}

impl SlotReceiver {
    #[tactic(auto, unfolding(crate::specs::View::receiver_from, crate::specs::Receiver::with_clock, crate::specs::Receiver::set_slot))]
    pub(crate) fn set_slot(&mut self, slot: TdmaTime)
        requires { Within (2 ^ 40) self.old.reference_time.0 × (slot.0 < slots) }
        ensures { (next : ℤ) (s : Signal) → receiver_from self.new next s ≡ with_clock (receiver_from self.old next s) (set_slot (mode_of self.old.mode) self.old.reference_time.0 slot.0) }
    {
        self.current_slot = slot;
        self.slot_ready_time = ready_time(self.mode(), self.reference_time, slot);
    }

    #[tactic(auto, using(dsp_types::proofs::Laws::slot_below), unfolding(crate::specs::Receiver::add_slots))]
    pub(crate) fn add_slots(&mut self, count: i32)
        requires { Within (2 ^ 40) self.old.reference_time.0 × (self.old.current_slot.0 < slots) }
        ensures { (next : ℤ) (s : Signal) → receiver_from self.new next s ≡ with_clock (receiver_from self.old next s) (add_slots (mode_of self.old.mode) (clock_of self.old) count) }
    {
        self.set_slot(self.current_slot.add_timeslots(count));
    }

    // Finds the next slot that is not past where the ready time is far off.
    #[tactic(auto, unfolding(crate::specs::View::receiver_from, crate::specs::Receiver::skip_if))]
    pub(crate) fn skip_slots(&mut self, t: i64)
        requires { Within (2 ^ 40) self.old.reference_time.0 × (self.old.current_slot.0 < slots) × Within (2 ^ 41 - 2 ^ 34) t }
        ensures { (next : ℤ) (s : Signal) → receiver_from self.new next s ≡ skip_if (far t) t (receiver_from self.old next s) }
    {
        if is_far(t) {
            self.add_slots(slots_to_skip(t));
        }
    }
}
