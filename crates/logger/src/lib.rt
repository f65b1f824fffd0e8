// The logger's call: kept window bits are judged again. From C it is `tetra_judge` of modem.
#![tactic(auto)]

ghost use Rattle.std.specs.Prelude.{◌≡◌, ◌<◌, ◌≤◌, length, IfOk};
ghost use Rattle.dsp_types.specs.Answers.{answer_number};
ghost use Rattle.burst_finder.specs.Slots.{slot_type_of};
ghost use Rattle.logger.specs.Judge.{window_length, judge_refusal, finding_bytes, judge_answer};

use burst_finder::{Finding, SlotType};
use dsp_types::{Refusal, not_bits};

// How many bits a window of the kind has.
#[tactic(auto, unfolding(crate::specs::Judge::window_length))]
fn window_length(slot_type: SlotType) -> usize
    ensures value { result ≡ window_length slot_type }
    ensures bound { result ≤ 510 }
{
    match slot_type {
        SlotType::Dl | SlotType::UlFull => 510,
        SlotType::UlSub => 254,
    }
}

// The slot kind of a call that is not refused.
#[tactic(auto, unfolding(crate::specs::Judge::judge_refusal, crate::specs::Judge::wrong_window, dsp_types::specs::Refusals::wrong_length))]
fn judged_type(kind: u32, bits: &[u8], answer: &[u8]) -> Result<SlotType, Refusal>
    ensures refusal { answer_number result ≡ judge_refusal kind bits.now answer.now }
    ensures kind { IfOk result (λ t. t ≡ slot_type_of kind) }
    ensures window { IfOk result (λ t. length bits.now ≤ 510) }
    ensures six { IfOk result (λ t. length answer.now ≡ 6) }
{
    let known = SlotType::try_from(kind);
    let is_window = match known {
        Ok(slot_type) => bits.len() == window_length(slot_type),
        Err(_) => true,
    };
    if answer.len() != 6 || !is_window {
        return Err(Refusal::BadLength);
    }
    if not_bits(bits) {
        return Err(Refusal::BadBit);
    }
    known
}

// The six answer bytes of a finding.
#[tactic(auto, unfolding(crate::specs::Judge::finding_bytes))]
fn write_answer(f: Finding, answer: &mut [u8])
    requires { (f.train_errs < 256) × (f.burst_pos < 65536) × (f.burst_len < 65536) × (length answer.old ≡ 6) }
    ensures { answer.new ≡ finding_bytes f }
{
    let [pos_low, pos_high] = (f.burst_pos as u16).to_le_bytes();
    let [len_low, len_high] = (f.burst_len as u16).to_le_bytes();
    answer.copy_from_slice(&[
        f.train_type.number(),
        f.train_errs as u8,
        pos_low,
        pos_high,
        len_low,
        len_high,
    ]);
}

// Judges kept window bits again: fills the six answer bytes, or refuses and leaves them alone. The kind comes as C's number, of which
// any has an answer.
#[tactic(auto, unfolding(crate::specs::Judge::judge_answer), using(crate::proofs::Judging::room))]
pub fn judge(kind: u32, bits: &[u8], answer: &mut [u8]) -> Result<(), Refusal>
    ensures refusal { answer_number result ≡ judge_refusal kind bits.now answer.old }
    ensures answer { answer.new ≡ judge_answer kind bits.now answer.old }
{
    let slot_type = judged_type(kind, bits, &*answer)?;
    write_answer(burst_finder::check_slot(slot_type, bits), answer);
    Ok(())
}
