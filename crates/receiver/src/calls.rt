// The slot handed over last is taken, and a receiver follows another.
ghost use Rattle.std.specs.Prelude.{◌≡◌, OnOk, OnErr, List, [], ◌∷◌, Float};
ghost use Rattle.slot_receiver.specs.Calls.{take_outcome, follow_outcome, reply_of, take_reply_of, in_numbers};
ghost use Rattle.slot_receiver.specs.View.{mode_of, mode_following};
ghost use Rattle.receiver.specs.View.{receiver_of};

use crate::State;
use dsp_types::Refusal;
use rx_slot::RxSlot;

impl State {
    // Takes the slot that waits: its views fill 510, 254 and 254 lent bytes. Or refuses, and everything stays as it is.
    #[tactic(auto, unfolding(crate::specs::View::receiver_of))]
    pub fn take_demodulated_slot(
        &mut self,
        slot: &mut [u8],
        subslot1: &mut [u8],
        subslot2: &mut [u8],
    ) -> Result<RxSlot, Refusal>
        ensures answer { (re im abs : List Float) → take_reply_of result ≡ in_numbers (take_outcome (receiver_of self.old re im abs) slot.old subslot1.old subslot2.old).reply }
        ensures receiver { (re im abs : List Float) → receiver_of self.new re im abs ≡ (take_outcome (receiver_of self.old re im abs) slot.old subslot1.old subslot2.old).receiver }
        ensures lent { (re im abs : List Float) → slot.new ∷ subslot1.new ∷ subslot2.new ∷ [] ≡ (take_outcome (receiver_of self.old re im abs) slot.old subslot1.old subslot2.old).lent }
        ensures refused { OnErr result (self.new ≡ self.old) }
    {
        slot_calls::take_demodulated_slot(&mut self.slots, slot, subslot1, subslot2)
    }

    // Takes the slot timing of another receiver. A receiver that finds its own is refused.
    #[tactic(auto, unfolding(crate::specs::View::receiver_of))]
    pub fn sync_to_demodulator(&mut self, demod: &State) -> Result<(), Refusal>
        ensures answer { (re im abs re₂ im₂ abs₂ : List Float) → reply_of result ≡ (follow_outcome (receiver_of self.old re im abs) (receiver_of demod.now re₂ im₂ abs₂)).reply }
        ensures receiver { (re im abs re₂ im₂ abs₂ : List Float) → receiver_of self.new re im abs ≡ (follow_outcome (receiver_of self.old re im abs) (receiver_of demod.now re₂ im₂ abs₂)).receiver }
        ensures mode { OnOk result (self.new.slots.mode ≡ mode_following (mode_of demod.now.slots.mode) self.old.slots.mode) }
        ensures refused { OnErr result (self.new ≡ self.old) }
    {
        slot_calls::sync_to_demodulator(&mut self.slots, &demod.slots)
    }
}
