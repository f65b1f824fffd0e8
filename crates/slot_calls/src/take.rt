// The slot handed over last is taken.
ghost use Rattle.std.specs.Prelude.{◌≡◌, OnErr, [], ◌∷◌, ℤ};
ghost use Rattle.dsp_types.specs.Answers.{answer_number};
ghost use Rattle.listener.specs.Signal.{Signal};
ghost use Rattle.slot_receiver.specs.Calls.{take_refusal, take_outcome, take_reply_of, in_numbers};
ghost use Rattle.slot_receiver.specs.View.{receiver_from};

use dsp_types::{Refusal, TdmaTime};
use rx_slot::{RxSlot, take_burst, valid_closing};
use slot_receiver::SlotReceiver;

// Why a take is refused.
#[tactic(auto, unfolding(slot_receiver::specs::Calls::take_refusal, dsp_types::specs::Refusals::wrong_length))]
fn take_refusal(slot: &[u8], subslot1: &[u8], subslot2: &[u8], waits: bool) -> Result<(), Refusal>
    ensures { answer_number result ≡ take_refusal slot.now subslot1.now subslot2.now waits }
{
    if slot.len() != 510 || subslot1.len() != 254 || subslot2.len() != 254 {
        return Err(Refusal::BadLength);
    }
    if !waits {
        return Err(Refusal::NoSlot);
    }
    Ok(())
}

// Takes the slot that waits: its views fill 510, 254 and 254 lent bytes, three slices as the source's call and C lend them. Or
// refuses, and everything stays as it is.
pub fn take_demodulated_slot(
    slots: &mut SlotReceiver,
    slot: &mut [u8],
    subslot1: &mut [u8],
    subslot2: &mut [u8],
) -> Result<RxSlot, Refusal>
    ensures answer { (next : ℤ) (s : Signal) → take_reply_of result ≡ in_numbers (take_outcome (receiver_from slots.old next s) slot.old subslot1.old subslot2.old).reply }
    ensures receiver { (next : ℤ) (s : Signal) → receiver_from slots.new next s ≡ (take_outcome (receiver_from slots.old next s) slot.old subslot1.old subslot2.old).receiver }
    ensures lent { (next : ℤ) (s : Signal) → slot.new ∷ subslot1.new ∷ subslot2.new ∷ [] ≡ (take_outcome (receiver_from slots.old next s) slot.old subslot1.old subslot2.old).lent }
    ensures refused { OnErr result (slots.new ≡ slots.old) }
{
    take_refusal(slot, subslot1, subslot2, slots.demodulated_slot_available)?;
    slots.demodulated_slot_available = false;
    let last = slots.demodulated_slot;
    Ok(RxSlot {
        time: TdmaTime(last.time.to_int()),
        closing_counter: valid_closing(last.closing_counter),
        full: take_burst(last.full, &slots.full_bits, slot),
        subslot1: take_burst(last.subslot1, &slots.subslot1_bits[..254], subslot1),
        subslot2: take_burst(last.subslot2, &slots.subslot2_bits[..254], subslot2),
    })
}
