// An uplink burst that the builders make is found again: calls one behind the other, and what is proved of their answers.
#![tactic(auto)]

mod receive;

ghost use Rattle.std.specs.Prelude.{◌≡◌, ◌≤◌, length, MatchResult};
ghost use Rattle.dsp_types.specs.Answers.{answer_number};
ghost use Rattle.dsp_types.specs.Refusals.{accepted};
ghost use Rattle.slotter.specs.Uplink.{uplink_reply, uplink_number, uplink_bits, placed};
ghost use Rattle.uplink.specs.Judging.{told, judged_of, judged_normal, judged_control, NormalFound, ControlFound};

use burst_finder::{Finding, SlotType, check_slot};
use dsp_types::Refusal;
use logger::judge;
pub use receive::{Received, sample_and_take};
use slotter::{build_cub, build_nub, place};

// What the calls on a burst in its window answer.
#[derive(Clone, Copy)]
pub struct Judged {
    // The builder's refusal, if it refused.
    pub built: Result<(), Refusal>,
    pub finding: Finding,
    // What the logger's call returns, and its six bytes: the zeros that were lent where it refuses.
    pub judged: Result<(), Refusal>,
    pub answer: [u8; 6],
}

// Places a burst, if one was built, at an offset of a window.
fn place_built<const N: usize>(
    burst: Result<[u8; N], Refusal>,
    offset: usize,
    window: &mut [u8],
) -> Result<(), Refusal>
    ensures number { answer_number result ≡ answer_number burst.entry }
    ensures window { MatchResult burst.entry (λ bits. window.new ≡ placed (length window.old) offset bits) (λ _. window.new ≡ window.old) }
{
    place(offset, &burst?, window);
    Ok(())
}

// Has a burst, if one was built, judged by the finder and by the logger's call, at an offset of a window of W bits.
fn judge_placed<const N: usize, const W: usize>(
    burst: Result<[u8; N], Refusal>,
    offset: usize,
    slot_type: SlotType,
) -> Judged
    requires { W ≤ 510 }
    ensures { told result ≡ judged_of (uplink_number (uplink_reply burst.entry)) slot_type (placed W offset (uplink_bits (uplink_reply burst.entry))) }
{
    let mut window = [0; W];
    let built = place_built(burst, offset, &mut window);
    let finding = check_slot(slot_type, &window);
    let mut answer = [0; 6];
    let judged = judge(slot_type.number(), &window, &mut answer);
    Judged {
        built,
        finding,
        judged,
        answer,
    }
}

// Builds a normal uplink burst, places it at an offset of a full window, and has the window judged.
pub fn judge_normal(train: u32, blk1: &[u8], blk2: &[u8], offset: usize) -> Judged
    ensures answers { told result ≡ judged_normal train blk1.now blk2.now offset }
    ensures found { answer_number result.built ≡ accepted → NormalFound train blk1.now blk2.now offset (told result) }
{
    let burst = build_nub(train, blk1, blk2);
    judge_placed::<462, 510>(burst, offset, SlotType::UlFull)
}

// The same of a control uplink burst and half a window.
pub fn judge_control(blk1: &[u8], blk2: &[u8], offset: usize) -> Judged
    ensures answers { told result ≡ judged_control blk1.now blk2.now offset }
    ensures found { answer_number result.built ≡ accepted → ControlFound blk1.now blk2.now offset (told result) }
{
    let burst = build_cub(blk1, blk2);
    judge_placed::<206, 254>(burst, offset, SlotType::UlSub)
}
