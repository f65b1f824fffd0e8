// Which samples are refused.
#![tactic(auto)]

ghost use Rattle.std.specs.Prelude.{◌≡◌};
ghost use Rattle.dsp_types.specs.Answers.{answer_number};
ghost use Rattle.dsp_types.specs.Refusals.{beyond};
ghost use Rattle.slot_receiver.specs.Calls.{sample_refusal};

use dsp_types::{ComplexSample, Refusal, SampleCount};

// NaN is neither at least −1,024 nor at most 1,024.
pub fn is_beyond(part: f32) -> bool
    ensures { result ≡ beyond part }
{
    // Both tests are made: a loop over parts has one branch for each.
    !((-1024.0 <= part) & (part <= 1024.0))
}

// Why a sample is refused, where next is the counter after the last accepted one.
#[tactic(auto, unfolding(slot_receiver::specs::Calls::sample_refusal))]
pub fn sample_refusal(
    next: SampleCount,
    input: ComplexSample,
    counter: SampleCount,
) -> Result<(), Refusal>
    ensures { answer_number result ≡ sample_refusal next.0 input counter.0 }
{
    if is_beyond(input.re) || is_beyond(input.im) {
        return Err(Refusal::BadSample);
    }
    if counter.is_out_of_count() {
        return Err(Refusal::BadCounter);
    }
    if counter < next {
        return Err(Refusal::PastCounter);
    }
    Ok(())
}
