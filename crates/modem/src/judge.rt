// The logger's call.
ghost use Rattle.std.specs.Prelude.{◌≡◌};
ghost use Rattle.logger.specs.Judge.{judge_refusal, judge_answer};

// Judges kept window bits again: fills the six answer bytes and returns 0, or returns the refusal's number and leaves them alone.
#[unsafe(no_mangle)]
pub extern "C" fn tetra_judge(kind: u32, bits: &[u8], answer: &mut [u8]) -> u32
    ensures { (result ≡ judge_refusal kind bits.now answer.old) × (answer.new ≡ judge_answer kind bits.now answer.old) }
{
    dsp_types::answer_number(&logger::judge(kind, bits, answer))
}
