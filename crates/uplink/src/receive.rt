// An uplink receiver, up to the close of a window and the take after it.
ghost use Rattle.std.specs.Prelude.{◌≡◌, OnErr, [], ◌∷◌, length};
ghost use Rattle.dsp_types.specs.Refusals.{accepted};
ghost use Rattle.rx_slot.specs.declared.RxSlot.{RxSlot};
ghost use Rattle.slot_receiver.specs.Receiver.{valid_count};
ghost use Rattle.slot_receiver.specs.Calls.{took, sample_refusal, sample_outcome, reply_of, take_reply_of, in_numbers};
ghost use Rattle.demodulator.specs.View.{view_of};
ghost use Rattle.uplink.specs.Received.{taken_after, ClosingWindow, ClosesUplink, BurstsTaken, CounterTaken};

use demodulator::Demodulator;
use dsp_types::{ComplexSample, Refusal, SampleCount};
use rx_slot::RxSlot;

#[derive(Clone, Copy)]
pub struct Received {
    // What the sample and what the take was answered with.
    pub sampled: Result<(), Refusal>,
    pub taken: Result<RxSlot, Refusal>,
}

// Gives a receiver a sample, and then takes the slot that waits.
pub fn sample_and_take(
    receiver: &mut Demodulator,
    input: ComplexSample,
    counter: SampleCount,
    slot: &mut [u8],
    subslot1: &mut [u8],
    subslot2: &mut [u8],
) -> Received
    ensures sampled { reply_of result.sampled ≡ (sample_outcome (view_of receiver.old) input counter.0).reply }
    ensures taken { take_reply_of result.taken ≡ in_numbers (taken_after (view_of receiver.old) input counter.0 slot.old subslot1.old subslot2.old).reply }
    ensures receiver { view_of receiver.new ≡ (taken_after (view_of receiver.old) input counter.0 slot.old subslot1.old subslot2.old).receiver }
    ensures lent { slot.new ∷ subslot1.new ∷ subslot2.new ∷ [] ≡ (taken_after (view_of receiver.old) input counter.0 slot.old subslot1.old subslot2.old).lent }
    ensures refused { OnErr result.sampled (OnErr result.taken (receiver.new ≡ receiver.old)) }
    ensures counter { (s : RxSlot) → sample_refusal (valid_count (view_of receiver.old).next) input counter.0 ≡ accepted → take_reply_of result.taken ≡ took s → CounterTaken (view_of receiver.old) input counter.0 s }
    ensures found { (w : ClosingWindow) → ClosesUplink (view_of receiver.old) input counter.0 w → length slot.old ≡ 510 → length subslot1.old ≡ 254 → length subslot2.old ≡ 254 → BurstsTaken w (take_reply_of result.taken) (slot.new ∷ subslot1.new ∷ subslot2.new ∷ []) }
{
    let sampled = receiver.sample(input, counter);
    let taken = receiver.take_demodulated_slot(slot, subslot1, subslot2);
    Received { sampled, taken }
}
