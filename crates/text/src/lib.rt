// A line of text, made piece by piece: at most 2,048 bytes, what is behind them is cut off.
#![tactic(auto)]

ghost use Rattle.std.specs.Prelude.{◌≡◌, [], ◌++◌, map, take};
ghost use Rattle.text.specs.Text.{cut, decimal, character_of, type_name, trimmed};

use std::marker::Model;
use streams::Host;

// The first len of the bytes, and 0 behind them. Not an `ArrayVec`, which is not `Copy` and whose model is a record: a
// `Text` stands for the list of its bytes in each equation.
#[derive(Clone, Copy)]
pub struct Text {
    bytes: [u8; 2048],
    len: usize,
}

impl Model for Text {
    ghost use Rattle.std.specs.Prelude.{◌≡◌, ℕ, ◌-◌, ◌≤◌, List, ◌++◌, length, take, drop, replicate, refl};
    ghost use Rattle.std.proofs.Common.{arith, length-take-le};
    ghost use Rattle.std.proofs.lemmas.List.{take-append-drop};

    ghost Value = { List ℕ };

    ghost view = { λ t. take t.len t.bytes };

    ghost invariant = { λ t. (length t.bytes ≡ 2048) × ((t.len ≤ 2048) × (drop t.len t.bytes ≡ replicate (2048 - t.len) 0)) };

    ghost inverse = { λ l. record { bytes = l ++ replicate (2048 - length l) 0; len = length l } };

    ghost inverse_ok = { λ t h. rw (length-take-le t.len t.bytes (omega (arith, h)), ← h.1.1, take-append-drop t.len t.bytes) refl };
}

// The first len bytes, or all where there are fewer.
pub fn front(bytes: &[u8], len: usize) -> &[u8]
    ensures { result.now ≡ take len bytes.now }
{
    bytes.get(..len).unwrap_or(bytes)
}

// The bytes without one closing byte c.
pub fn trimmed(bytes: &[u8], c: u8) -> &[u8]
    ensures { result.now ≡ trimmed c bytes.now }
{
    bytes.strip_suffix(&[c]).unwrap_or(bytes)
}

// The character of a bit.
#[tactic(auto, unfolding(crate::specs::Text::character_of))]
fn character_of(bit: u8) -> u8
    ensures { result ≡ character_of bit }
{
    if bit == 0 { b'0' } else { b'1' }
}

impl Text {
    pub fn new() -> Text
        ensures { result ≡ [] }
    {
        Text {
            bytes: [0; 2048],
            len: 0,
        }
    }

    // With the bytes s behind it.
    #[tactic(auto, unfolding(crate::specs::Text::cut))]
    pub fn append(mut self, s: &[u8]) -> Text
        ensures { result ≡ cut (self ++ s.now) }
    {
        let len = self.len;
        let count = s.len().min(2048 - len);
        self.bytes[len..len + count].copy_from_slice(&s[..count]);
        self.len = len + count;
        self
    }

    // With a number in decimal behind it.
    pub fn decimal(self, n: u64) -> Text
        ensures { result ≡ cut (self ++ decimal 20 n) }
    {
        let mut digits = [0u8; 20];
        let k = io::decimal(n, &mut digits);
        self.append(&digits[..k])
    }

    // With the characters of bits behind it.
    pub fn bits(self, bits: &[u8]) -> Text
        ensures { result ≡ cut (self ++ map character_of bits.now) }
    {
        let mut characters = [0u8; 2048];
        let count = bits.len().min(2048);
        // Written by index: of what `iter_mut` in a zip lends, nothing is known after the loop.
        for (i, bit) in bits[..count].iter().enumerate() {
            characters[i] = character_of(*bit);
        }
        self.append(&characters[..count])
    }

    // With a burst type's name behind it, by the type's number: any that C's `RxBurst` stores has a name.
    #[tactic(auto, unfolding(crate::specs::Text::type_name, crate::specs::Text::ascii))]
    pub fn type_name(self, burst_type: u32) -> Text
        ensures { result ≡ cut (self ++ type_name burst_type) }
    {
        match burst_type {
            1 => self.append(b"normal1"),
            2 => self.append(b"normal2"),
            3 => self.append(b"extended"),
            4 => self.append(b"sync"),
            _ => self.append(b"none"),
        }
    }

    pub fn as_bytes(&self) -> &[u8]
        ensures { result.now ≡ self.now }
    {
        front(&self.bytes, self.len)
    }

    // Writes it to standard output.
    pub fn print<H: Host>(self, rt: &H) -> std::io::Result<()> {
        streams::print(rt, self.as_bytes())
    }

    // Writes it to standard error.
    pub fn tell<H: Host>(self, rt: &H) {
        streams::tell(rt, self.as_bytes());
    }
}
