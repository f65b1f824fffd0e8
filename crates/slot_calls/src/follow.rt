// A receiver follows another.
ghost use Rattle.std.specs.Prelude.{◌≡◌, OnOk, OnErr, ℤ};
ghost use Rattle.listener.specs.Signal.{Signal};
ghost use Rattle.slot_receiver.specs.Calls.{slot_when, following, follow_outcome, reply_of};
ghost use Rattle.slot_receiver.specs.View.{mode_of, mode_following, receiver_from};

use dsp_types::{Refusal, TdmaTime};
use slot_receiver::{Mode, SlotReceiver};

// An idle receiver takes the other's last slot number too.
#[tactic(auto, unfolding(slot_receiver::specs::Calls::slot_when))]
fn slot_when(mode: Mode, other: TdmaTime, own: TdmaTime) -> TdmaTime
    ensures { result.0 ≡ slot_when mode other.0 own.0 }
{
    match mode {
        Mode::Idle => other,
        Mode::DlUnsynchronized | Mode::Dl | Mode::Ul => own,
    }
}

// Idle while the other searches, uplink once it is locked.
#[tactic(auto, using(slot_receiver::proofs::Views::mode_stored), unfolding(slot_receiver::specs::Calls::following, slot_receiver::specs::View::receiver_from, slot_receiver::specs::View::mode_following, slot_receiver::specs::Receiver::with_mode, slot_receiver::specs::Receiver::with_clock))]
fn follow(slots: &mut SlotReceiver, demod: &SlotReceiver)
    ensures receiver { (next next₂ : ℤ) (s s₂ : Signal) → receiver_from slots.new next s ≡ following (mode_of demod.now.mode) (receiver_from slots.old next s) (receiver_from demod.now next₂ s₂) }
    ensures mode { slots.new.mode ≡ mode_following (mode_of demod.now.mode) slots.old.mode }
{
    match demod.mode() {
        Mode::Idle | Mode::Ul => {}
        Mode::DlUnsynchronized => slots.mode = Mode::Idle.number(),
        Mode::Dl => {
            slots.reference_time = demod.reference_time;
            slots.current_slot = slot_when(
                slots.mode(),
                demod.demodulated_slot.time,
                slots.current_slot,
            );
            slots.mode = Mode::Ul.number();
        }
    }
}

// Takes the slot timing of another receiver. A receiver that finds its own is refused.
#[tactic(auto, unfolding(slot_receiver::specs::Calls::follow_outcome, slot_receiver::specs::Calls::follow_refusal, slot_receiver::specs::Calls::unless, slot_receiver::specs::Calls::followed, slot_receiver::specs::Calls::reply_of, slot_receiver::specs::View::receiver_from))]
pub fn sync_to_demodulator(slots: &mut SlotReceiver, demod: &SlotReceiver) -> Result<(), Refusal>
    ensures answer { (next next₂ : ℤ) (s s₂ : Signal) → reply_of result ≡ (follow_outcome (receiver_from slots.old next s) (receiver_from demod.now next₂ s₂)).reply }
    ensures receiver { (next next₂ : ℤ) (s s₂ : Signal) → receiver_from slots.new next s ≡ (follow_outcome (receiver_from slots.old next s) (receiver_from demod.now next₂ s₂)).receiver }
    ensures mode { OnOk result (slots.new.mode ≡ mode_following (mode_of demod.now.mode) slots.old.mode) }
    ensures refused { OnErr result (slots.new ≡ slots.old) }
{
    match slots.mode() {
        Mode::DlUnsynchronized | Mode::Dl => Err(Refusal::NotFollowing),
        Mode::Idle | Mode::Ul => {
            follow(slots, demod);
            Ok(())
        }
    }
}
