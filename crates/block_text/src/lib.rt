// Bursts from their blocks' bits written as characters, joined in burst order.
#![tactic(auto)]

mod line;
mod slot;
mod uplink;

ghost use Rattle.std.specs.Prelude.{◌≡◌, map, length, IfOk};
ghost use Rattle.dsp_types.specs.Answers.{answer_number};
ghost use Rattle.slotter.specs.Bursts.{builder_reply};
ghost use Rattle.block_text.specs.BlockText.{downlink_type, type_or_0, letter_type, wanted, not_character, not_characters, wrong_count, characters_refusal, character_bit, burst_of, answer_of};

use dsp_types::Refusal;
pub use line::push;
pub use slot::{Complaint, LineRead, LineSlot, slot_of};
use slotter::Burst;

// The type of a downlink burst.
#[derive(Clone, Copy, Debug, PartialEq, Eq)]
pub enum BurstType {
    Normal1 = 1,
    Normal2 = 2,
    Sync = 4,
}

impl BurstType {
    // The type that a letter asks for. (A `TryFrom<u8>` would not say that it reads a letter, and no number.)
    #[tactic(auto, unfolding(crate::specs::BlockText::letter_type))]
    pub fn of_letter(letter: u8) -> Option<BurstType>
        ensures { type_or_0 result ≡ letter_type letter }
    {
        match letter {
            b'S' => Some(BurstType::Sync),
            b'N' => Some(BurstType::Normal1),
            b'P' => Some(BurstType::Normal2),
            _ => None,
        }
    }

    pub fn number(self) -> u32
        ensures { result ≡ downlink_type self }
    {
        self as u32
    }
}

// How many characters the blocks of a type have.
#[tactic(auto, unfolding(crate::specs::BlockText::wanted))]
fn wanted_length(burst_type: u32) -> usize
    ensures { result ≡ wanted burst_type }
{
    if burst_type == 4 { 366 } else { 462 }
}

// Whether a character is other than 0 and 1.
#[tactic(auto, unfolding(crate::specs::BlockText::not_character))]
pub fn not_character(c: u8) -> bool
    ensures { result ≡ not_character c }
{
    c != b'0' && c != b'1'
}

// Whether some character is other than 0 and 1. It looks at every one, so that the compiler can take many at once, as
// dsp_types' `not_bits` does.
fn not_characters(characters: &[u8]) -> bool
    ensures { result ≡ not_characters characters.now }
{
    let mut found = false;
    for c in characters {
        found |= not_character(*c);
    }
    found
}

// Whether the characters behind a letter of that type are too few or too many. For another letter no length is judged.
#[tactic(auto, unfolding(crate::specs::BlockText::wrong_count, dsp_types::specs::Refusals::wrong_length))]
fn wrong_length(burst_type: u32, characters: &[u8]) -> bool
    ensures { result ≡ wrong_count burst_type characters.now }
{
    burst_type != 0 && characters.len() != wanted_length(burst_type)
}

// Refuses the characters behind a letter of that type: 3, 4, or 5 for another letter.
#[tactic(auto, unfolding(crate::specs::BlockText::characters_refusal, crate::specs::BlockText::wrong_count, dsp_types::specs::Refusals::wrong_length))]
fn check(burst_type: u32, characters: &[u8]) -> Result<(), Refusal>
    ensures refusal { answer_number result ≡ characters_refusal burst_type characters.now }
    ensures length { IfOk result (λ _. length characters.now ≡ wanted burst_type) }
{
    if wrong_length(burst_type, characters) {
        return Err(Refusal::BadLength);
    }
    if not_characters(characters) {
        return Err(Refusal::BadBit);
    }
    if burst_type == 0 {
        return Err(Refusal::BadTraining);
    }
    Ok(())
}

// The bit that a character stands for.
#[tactic(auto, unfolding(crate::specs::BlockText::character_bit))]
fn bit_of(c: u8) -> u8
    ensures { result ≡ character_bit c }
{
    u8::from(c == b'1')
}

// The bits that characters stand for.
fn bits_of<const N: usize>(characters: &[u8]) -> [u8; N]
    requires { length characters.now ≡ N }
    ensures { result ≡ map character_bit characters.now }
{
    std::array::from_fn(|i| bit_of(characters[i]))
}

// The burst of a type, from the characters of its blocks.
#[tactic(auto, unfolding(crate::specs::BlockText::wanted))]
fn burst_of(burst_type: u32, characters: &[u8]) -> Result<Burst, Refusal>
    requires { length characters.now ≡ wanted burst_type }
    ensures { builder_reply result ≡ burst_of burst_type (map character_bit characters.now) }
{
    if burst_type == 4 {
        let bits = bits_of::<366>(characters);
        slotter::build_sdb(&bits[..120], &bits[120..150], &bits[150..])
    } else {
        let bits = bits_of::<462>(characters);
        slotter::build_ndb(burst_type, &bits[..216], &bits[216..246], &bits[246..])
    }
}

// The burst of a type, 4 sync, 1 or 2 normal, from its blocks' bits in burst order as characters 0 and 1, or their
// refusal: 3, 4, or 5 for another type. For type 0, another letter, no length is judged. (The type comes as 01's number, of
// which any has an answer.)
#[tactic(auto, using(crate::proofs::Judged::refuses, crate::proofs::Judged::accepts))]
pub fn answer(burst_type: u32, characters: &[u8]) -> Result<Burst, Refusal>
    ensures { builder_reply result ≡ answer_of burst_type characters.now }
{
    check(burst_type, characters)?;
    burst_of(burst_type, characters)
}
