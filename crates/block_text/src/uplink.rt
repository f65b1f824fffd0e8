// The slot that an uplink line asks for: a burst at an offset.
ghost use Rattle.std.specs.Prelude.{◌≡◌, ◌+◌, ◌<◌, ◌≤◌, [], length, take, drop, true, false, Some, MatchOption};
ghost use Rattle.slotter.specs.Uplink.{uplink_reply, uplink_bits, placed};
ghost use Rattle.block_text.specs.UplinkLines.{uplink_type, first_word, after_word, digit_of, offset_of, not_offset, uplink_wanted, uplink_slot};
ghost use Rattle.block_text.specs.Lines.{uplink, length_complaint, sent_for, slots_for, judged_slots, complaint_for, complaint_in};

use crate::slot::{Complaint, LineSlot};
use crate::{bits_of, not_characters};
use dsp_types::Refusal;

// The type of an uplink burst: a normal one with a training sequence, or a control burst.
#[derive(Clone, Copy, Debug, PartialEq, Eq)]
pub(crate) enum UplinkType {
    Normal1 = 1,
    Normal2 = 2,
    Control = 3,
}

impl UplinkType {
    fn number(self) -> u32
        ensures { result ≡ uplink_type self }
    {
        self as u32
    }

    // How many bits both blocks have.
    #[tactic(auto, unfolding(crate::specs::UplinkLines::uplink_wanted))]
    fn length(self) -> usize
        ensures { result ≡ uplink_wanted (uplink_type self) }
    {
        match self {
            UplinkType::Control => 168,
            UplinkType::Normal1 | UplinkType::Normal2 => 432,
        }
    }

    // What is wrong where they have another number.
    #[tactic(auto, unfolding(crate::specs::Lines::length_complaint))]
    fn length_complaint(self) -> Complaint
        ensures { result ≡ length_complaint (uplink_type self) }
    {
        match self {
            UplinkType::Control => Complaint::ControlLength,
            UplinkType::Normal1 | UplinkType::Normal2 => Complaint::UplinkLength,
        }
    }
}

// Where the first blank stands: before it is the first word, behind it the rest.
fn first_blank(text: &[u8]) -> Option<usize>
    ensures { MatchOption result ((first_word text.now ≡ text.now) × (after_word text.now ≡ [])) (λ at. (at < length text.now) × (take at text.now ≡ first_word text.now) × (drop (at + 1) text.now ≡ after_word text.now)) }
{
    text.iter().position(|c| *c == b' ')
}

// The bytes before the first blank, and those behind it.
fn split_word(text: &[u8]) -> (&[u8], &[u8])
    ensures word { result.0.now ≡ first_word text.now }
    ensures rest { result.1.now ≡ after_word text.now }
{
    match first_blank(text) {
        Some(at) => (&text[..at], &text[at + 1..]),
        None => (text, b""),
    }
}

#[tactic(auto, unfolding(crate::specs::UplinkLines::digit_of))]
fn digit_of(c: u8) -> Option<usize>
    ensures { MatchOption result (digit_of c ≡ 99) (λ n. (n ≡ digit_of c) × (n ≤ 9)) }
{
    char::from(c).to_digit(10).map(|n| n as usize)
}

// The offset that a word is: one or two digits, an even number that is at most 48.
#[tactic(auto, unfolding(crate::specs::UplinkLines::offset_of, crate::specs::UplinkLines::not_offset))]
fn offset_of(word: &[u8]) -> Option<usize>
    ensures { MatchOption result (not_offset (offset_of word.now) ≡ true) (λ n. (n ≡ offset_of word.now) × (not_offset n ≡ false)) }
{
    let offset = match word {
        [c] => digit_of(*c)?,
        [c, d] => 10 * digit_of(*c)? + digit_of(*d)?,
        _ => return None,
    };
    Some(offset).filter(|n| n % 2 == 0 && *n <= 48)
}

// A slot's bits with a burst at the offset.
#[tactic(auto, unfolding(slotter::specs::Uplink::uplink_reply, slotter::specs::Uplink::uplink_bits))]
fn placed<const N: usize>(offset: usize, burst: Result<[u8; N], Refusal>) -> [u8; 510]
    ensures { result ≡ placed 510 offset (uplink_bits (uplink_reply burst.entry)) }
{
    let mut window = [0; 510];
    match &burst {
        Ok(bits) => slotter::place(offset, bits, &mut window),
        Err(_) => slotter::place(offset, b"", &mut window),
    }
    window
}

// A slot's bits with the burst of a type at the offset.
#[tactic(auto, unfolding(crate::specs::UplinkLines::uplink_wanted))]
fn placed_burst(burst_type: UplinkType, offset: usize, characters: &[u8]) -> [u8; 510]
    requires { length characters.now ≡ uplink_wanted (uplink_type burst_type) }
    ensures { result ≡ uplink_slot (uplink_type burst_type) offset characters.now }
{
    match burst_type {
        UplinkType::Control => {
            let bits = bits_of::<168>(characters);
            placed(offset, slotter::build_cub(&bits[..84], &bits[84..]))
        }
        UplinkType::Normal1 | UplinkType::Normal2 => {
            let bits = bits_of::<432>(characters);
            placed(
                offset,
                slotter::build_nub(burst_type.number(), &bits[..216], &bits[216..]),
            )
        }
    }
}

// The slot of an uplink burst of that type, from what stands behind its word.
#[tactic(auto, unfolding(crate::specs::Lines::sent_for, crate::specs::Lines::uplink_sent, crate::specs::Lines::slots_for, crate::specs::Lines::complaint_for, dsp_types::specs::Refusals::wrong_length))]
pub(crate) fn uplink_slot(burst_type: UplinkType, text: &[u8]) -> Result<LineSlot, Complaint>
    ensures slots { judged_slots result ≡ slots_for (sent_for (uplink (uplink_type burst_type) text.now)) }
    ensures complaint { complaint_in result ≡ complaint_for (sent_for (uplink (uplink_type burst_type) text.now)) }
{
    let (word, characters) = split_word(text);
    let offset = offset_of(word).ok_or(Complaint::Offset)?;
    if characters.len() != burst_type.length() {
        return Err(burst_type.length_complaint());
    }
    if not_characters(characters) {
        return Err(Complaint::NotBits);
    }
    Ok(LineSlot::Bits(placed_burst(burst_type, offset, characters)))
}
