// The calls that work on nothing that is kept: burst builders, the logger's call, magnitude and quarter turns.
use crate::answer::{burst, float, refused, with_number};
use crate::field::{ROOM, bits, digits, letter, number, sample};
use block_text::BurstType;
use dsp_types::Refusal;
use magnitude::magnitude;
use slotter::{Burst, build_ndb, build_sdb};
use text::Text;
use timing::quarter_turns;

fn built(answer: Result<Burst, Refusal>) -> Text {
    burst(answer.map(|built| built.bits))
}

// A burst from its letter and its blocks' characters, joined.
pub(crate) fn build_joined(line: &[u8]) -> Option<Text> {
    let kind = letter(line, 1).filter(|kind| kind.is_ascii_alphabetic())?;
    let characters = digits(line, 2)?;
    let burst_type = BurstType::of_letter(kind).map_or(0, BurstType::number);
    Some(built(block_text::answer(burst_type, characters)))
}

// A burst from three slices.
pub(crate) fn build(line: &[u8]) -> Option<Text> {
    let mut room: &mut [u8] = &mut [0; ROOM];
    let blk1 = bits(line, 2, &mut room)?;
    let bbk = bits(line, 3, &mut room)?;
    let blk2 = bits(line, 4, &mut room)?;
    Some(built(match letter(line, 1) {
        Some(b'S') => build_sdb(blk1, bbk, blk2),
        _ => build_ndb(number(line, 1)?, blk1, bbk, blk2),
    }))
}

// The number of two bytes, the low one first.
fn number_of(low: u8, high: u8) -> u64 {
    u64::from(u16::from_le_bytes([low, high]))
}

// The logger's call with so many answer bytes, where there are so many.
fn judged(kind: u32, bits: &[u8], len: usize) -> Option<Text> {
    let mut answer = [0u8; 4096];
    if let Err(refusal) = logger::judge(kind, bits, answer.get_mut(..len)?) {
        return Some(refused(refusal));
    }
    let burst = with_number(Text::new().append(b"judged"), u64::from(answer[0]));
    let errors = with_number(burst, u64::from(answer[1]));
    let place = with_number(errors, number_of(answer[2], answer[3]));
    Some(with_number(place, number_of(answer[4], answer[5])).append(b"\n"))
}

// Has bits judged.
pub(crate) fn judge(line: &[u8]) -> Option<Text> {
    let mut room: &mut [u8] = &mut [0; ROOM];
    let kind = number(line, 1)?;
    let len = number(line, 2)? as usize;
    judged(kind, bits(line, 3, &mut room)?, len)
}

// (One function for this and the next would be given what it makes of a sample's parts, and ask that it can be called: no plainer.)
pub(crate) fn magnitude_of(line: &[u8]) -> Option<Text> {
    let x = sample(line, 1)?;
    Some(float(magnitude(x.re, x.im)))
}

pub(crate) fn turns_of(line: &[u8]) -> Option<Text> {
    let x = sample(line, 1)?;
    Some(float(quarter_turns(x.re, x.im)))
}
