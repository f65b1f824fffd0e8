// A line that asks for a slot: a burst's type and its blocks, or none.
ghost use Rattle.std.specs.Prelude.{◌≡◌, List, ◌∷◌, ◌++◌, ℕ, true, false, MatchOption, length, drop};
ghost use Rattle.block_text.specs.Lines.{starts_with, asked_of, asked_uplink, asked, sent_of};

use crate::BurstType;
use crate::uplink::UplinkType;
use arrayvec::ArrayVec;

#[derive(Clone, Copy)]
pub(crate) enum Asked<'a> {
    // An empty line, or a remark.
    Nothing,
    // A slot without a burst.
    Empty,
    // A burst of that type, from its bits' characters.
    Burst(BurstType, &'a [u8]),
    // An uplink's burst of that type, from its offset and its bits' characters.
    Uplink(UplinkType, &'a [u8]),
    Unknown,
}

// What stands behind a word that a line starts with.
#[tactic(auto, using(crate::proofs::Words::same_start))]
fn behind<'a>(line: &'a [u8], word: &[u8]) -> Option<&'a [u8]>
    ensures { MatchOption result (starts_with word.now line.now ≡ false) (λ x. (starts_with word.now line.now ≡ true) × (x.now ≡ drop (length word.now) line.now)) }
{
    line.strip_prefix(word)
}

#[tactic(auto, unfolding(crate::specs::Lines::asked_uplink, crate::specs::Lines::asked_of, text::specs::Text::ascii))]
fn read_uplink(line: &[u8]) -> Asked<'_>
    ensures { asked_of result ≡ asked_uplink line.now }
{
    if let Some(text) = behind(line, b"uplink1 ") {
        return Asked::Uplink(UplinkType::Normal1, text);
    }
    if let Some(text) = behind(line, b"uplink2 ") {
        return Asked::Uplink(UplinkType::Normal2, text);
    }
    if let Some(text) = behind(line, b"control ") {
        return Asked::Uplink(UplinkType::Control, text);
    }
    Asked::Unknown
}

#[tactic(auto, unfolding(crate::specs::Lines::asked, crate::specs::Lines::asked_of, text::specs::Text::ascii), using(crate::proofs::Words::is_word))]
pub(crate) fn read(line: &[u8]) -> Asked<'_>
    ensures { asked_of result ≡ asked line.now }
{
    if line.is_empty() || behind(line, b"#").is_some() {
        return Asked::Nothing;
    }
    if let Some(characters) = behind(line, b"sync ") {
        return Asked::Burst(BurstType::Sync, characters);
    }
    if let Some(characters) = behind(line, b"normal1 ") {
        return Asked::Burst(BurstType::Normal1, characters);
    }
    if let Some(characters) = behind(line, b"normal2 ") {
        return Asked::Burst(BurstType::Normal2, characters);
    }
    if line == b"empty".as_slice() {
        return Asked::Empty;
    }
    read_uplink(line)
}

// Adds a byte to what is kept of a line: 512 bytes at most. What the line comes to is the same, whatever follows: a longer one
// is of no burst, or refused for its offset or its length.
#[tactic(auto, using(crate::proofs::Kept::room, crate::proofs::Kept::no_room))]
pub fn push(line: &mut ArrayVec<u8, 512>, byte: u8)
    ensures { (t : List ℕ) → sent_of (line.new.items ++ t) ≡ sent_of (line.old.items ++ (byte ∷ t)) }
{
    let _ = line.try_push(byte);
}
