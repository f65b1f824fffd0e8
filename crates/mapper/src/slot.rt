// What is due in a call of the sender.
ghost use Rattle.std.specs.Prelude.{◌≡◌, ◌<◌, ◌^◌, pos, ◌-ℤ◌};
ghost use Rattle.std.specs.Option.{option_copied};
ghost use Rattle.dsp_types.specs.Answers.{answer_number};
ghost use Rattle.mapper.specs.Due.{bits_refusal, input_refusal, start_of, bit_at, due_at, due_of, numbered};

use crate::Due;
use dsp_types::{LAST_SLOT, Refusal, SampleCount, TdmaTime};

// A slot: the counter of its first sample, and its bits, where it has any.
#[derive(Clone, Copy)]
pub struct SlotToSend<'a> {
    pub start: u64,
    pub bits: Option<&'a [u8]>,
}

#[tactic(auto, unfolding(crate::specs::Due::bits_refusal, dsp_types::specs::Refusals::wrong_length))]
fn check_bits(bits: Option<&[u8]>) -> Result<(), Refusal>
    ensures { answer_number result ≡ bits_refusal (option_copied bits.entry) }
{
    let Some(bits) = bits else {
        return Ok(());
    };
    if bits.len() != 510 {
        return Err(Refusal::BadLength);
    }
    if dsp_types::not_bits(bits) {
        return Err(Refusal::BadBit);
    }
    Ok(())
}

#[tactic(auto, unfolding(crate::specs::Due::input_refusal, crate::specs::Due::slot_refusal))]
fn check_input(counter: SampleCount, slot: TdmaTime, bits: Option<&[u8]>) -> Result<(), Refusal>
    ensures { answer_number result ≡ input_refusal counter.0 slot.0 (option_copied bits.entry) }
{
    if counter.is_out_of_count() {
        return Err(Refusal::BadCounter);
    }
    check_bits(bits)?;
    if LAST_SLOT < slot.0 {
        return Err(Refusal::BadSlot);
    }
    Ok(())
}

// The counter of a slot's first sample.
#[tactic(auto, unfolding(crate::specs::Due::start_of))]
pub fn start_of(slot: TdmaTime) -> u64
    ensures { (result ≡ start_of slot.0) × (result < 2 ^ 42) }
{
    slot.start()
}

// Whether bit i is 1. One that is missing counts as 0.
#[tactic(auto, unfolding(crate::specs::Due::bit_at))]
fn bit(bits: &[u8], i: usize) -> bool
    ensures { result ≡ bit_at bits.now i }
{
    bits.get(i).is_some_and(|bit| *bit != 0)
}

impl SlotToSend<'_> {
    // What is due at a count of samples, the filter's delay among them.
    #[tactic(auto, using(crate::proofs::Places::early, crate::proofs::Places::late, crate::proofs::Places::absent, crate::proofs::Places::between, crate::proofs::Places::symbol))]
    pub fn due_at(self, count: u64) -> Result<Due, Refusal>
        ensures { numbered result ≡ due_at (option_copied self.entry.bits) (pos count -ℤ pos self.entry.start) }
    {
        if count < self.start {
            return Ok(Due::Silence);
        }
        let place = count - self.start;
        if 1020 <= place {
            return Err(Refusal::NeedMoreData);
        }
        let Some(bits) = self.bits else {
            return Ok(Due::Silence);
        };
        if place % 4 != 0 {
            return Ok(Due::Silence);
        }
        let i = (place / 4 * 2) as usize;
        Ok(Due::Symbol(bit(bits, i), bit(bits, i + 1)))
    }
}

// The filter's delay of 16 samples is made up for.
#[tactic(auto, using(crate::proofs::Places::refused, crate::proofs::Places::accepted))]
pub fn due_now(counter: SampleCount, slot: TdmaTime, bits: Option<&[u8]>) -> Result<Due, Refusal>
    ensures { numbered result ≡ due_of counter.0 slot.0 (option_copied bits.entry) }
{
    check_input(counter, slot, bits)?;
    let start = start_of(slot);
    SlotToSend { start, bits }.due_at(dsp_types::unsigned(counter.0) + 16)
}
