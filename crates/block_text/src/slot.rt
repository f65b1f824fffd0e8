// The slot that a line asks for, and what is said of a line that cannot be sent.
ghost use Rattle.std.specs.Prelude.{◌≡◌, Some};
ghost use Rattle.dsp_types.specs.Answers.{number_of};
ghost use Rattle.block_text.specs.BlockText.{downlink_type, answer_of};
ghost use Rattle.block_text.specs.Lines.{asked, answered, sent_for, complaint_of, complaint_for, complaint_in, judged_slots, slots_for, slots_of};

use crate::line::{Asked, read};
use crate::uplink::uplink_slot;
use crate::{BurstType, answer};
use dsp_types::Refusal;
use std::error::Error;
use std::fmt;

// What is wrong with a line, whose slot is then sent without a burst.
#[derive(Clone, Copy, Debug, PartialEq, Eq)]
pub enum Complaint {
    // A character is neither 0 nor 1.
    NotBits,
    // The characters are too few or too many.
    SyncLength,
    NormalLength,
    UplinkLength,
    ControlLength,
    // The offset is no even number from 0 to 48.
    Offset,
    // It asks for nothing that is known.
    Unknown,
}

impl fmt::Display for Complaint {
    ghost use Rattle.std.specs.Prelude.{Some};
    ghost use Rattle.block_text.specs.Lines.{complaint_text};

    ghost output = { λ complaint. Some (complaint_text complaint) };

    #[tactic(auto, unfolding(crate::specs::Lines::complaint_text, text::specs::Text::ascii))]
    fn fmt<W: fmt::Write>(&self, f: &mut fmt::Formatter<W>) -> fmt::Result {
        f.write_str(match self {
            Complaint::NotBits => "a bit is neither 0 nor 1",
            Complaint::SyncLength => "sync takes 366 bits",
            Complaint::NormalLength => "a normal burst takes 462 bits",
            Complaint::UplinkLength => "an uplink burst takes 432 bits",
            Complaint::ControlLength => "a control burst takes 168 bits",
            Complaint::Offset => "the offset is no even number from 0 to 48",
            Complaint::Unknown => {
                "not sync, normal1, normal2, uplink1, uplink2 or control with bits, nor empty"
            }
        })
    }
}

impl Error for Complaint {}

#[derive(Clone, Copy)]
pub enum LineSlot {
    // An empty line and a remark ask for none.
    Nothing,
    // A slot without a burst.
    Empty,
    Bits([u8; 510]),
}

// What a line comes to: its slot, which of a line that cannot be sent is one without a burst, and what is wrong with the line.
#[derive(Clone, Copy)]
pub struct LineRead {
    pub slot: LineSlot,
    pub complaint: Option<Complaint>,
}

// What is wrong with the characters of a burst of that type, which are refused.
#[tactic(auto, unfolding(crate::specs::Lines::complaint_of))]
fn complaint_of(burst_type: BurstType, refusal: Refusal) -> Complaint
    ensures { Some result ≡ complaint_of (downlink_type burst_type) (number_of refusal) }
{
    if refusal == Refusal::BadBit {
        return Complaint::NotBits;
    }
    match burst_type {
        BurstType::Sync => Complaint::SyncLength,
        BurstType::Normal1 | BurstType::Normal2 => Complaint::NormalLength,
    }
}

fn burst_slot(burst_type: BurstType, characters: &[u8]) -> Result<LineSlot, Complaint>
    ensures slots { judged_slots result ≡ slots_for (answered (downlink_type burst_type) (answer_of (downlink_type burst_type) characters.now)) }
    ensures complaint { complaint_in result ≡ complaint_for (answered (downlink_type burst_type) (answer_of (downlink_type burst_type) characters.now)) }
{
    match answer(burst_type.number(), characters) {
        Ok(burst) => Ok(LineSlot::Bits(burst.bits)),
        Err(refusal) => Err(complaint_of(burst_type, refusal)),
    }
}

#[tactic(auto, unfolding(crate::specs::Lines::asked_of, crate::specs::Lines::sent_for, crate::specs::Lines::slots_for, crate::specs::Lines::complaint_for))]
fn judged_slot(line: &[u8]) -> Result<LineSlot, Complaint>
    ensures slots { judged_slots result ≡ slots_for (sent_for (asked line.now)) }
    ensures complaint { complaint_in result ≡ complaint_for (sent_for (asked line.now)) }
{
    match read(line) {
        Asked::Nothing => Ok(LineSlot::Nothing),
        Asked::Empty => Ok(LineSlot::Empty),
        Asked::Burst(burst_type, characters) => burst_slot(burst_type, characters),
        Asked::Uplink(burst_type, text) => uplink_slot(burst_type, text),
        Asked::Unknown => Err(Complaint::Unknown),
    }
}

// The slot of a line without its line end, and what is wrong with the line.
pub fn slot_of(line: &[u8]) -> LineRead
    ensures slots { slots_of result.slot ≡ slots_for (sent_for (asked line.now)) }
    ensures complaint { result.complaint ≡ complaint_for (sent_for (asked line.now)) }
{
    match judged_slot(line) {
        Ok(slot) => LineRead {
            slot,
            complaint: None,
        },
        Err(complaint) => LineRead {
            slot: LineSlot::Empty,
            complaint: Some(complaint),
        },
    }
}
