// Raw samples as radio programs have them: parts re, im, re, im, .., each a few bytes, lowest first.
#![tactic(auto)]

mod meter;

ghost use Rattle.std.specs.Prelude.{◌≡◌, [], ◌∷◌, ◌++◌, ◌*◌, ◌/◌, min, length, take, drop, get_or, ℕ, ◌<◌};
ghost use Rattle.std.specs.Float.{nan};
ghost use Rattle.iq_format.specs.Parts.{word_of, width, part_of, parts_in, part_bytes};

pub use meter::level;
// The f32 of a bit pattern, and the pattern of an f32. NaN's patterns all give the same NaN, and one of them stands for all.
pub use std::num::{f32_from_bits_with_nan as float, f32_to_bits_with_nan as pattern};

// What a file of samples holds: f32 parts as GNU Radio and csdr write them (`.cf32`), signed 16-bit ones as SoapySDR
// does (`.cs16`), or bytes as rtl_sdr does (`.cu8`).
#[derive(Clone, Copy, Debug, PartialEq, Eq)]
pub enum Format {
    Cf32,
    Cs16,
    Cu8,
}

// How many bytes a part has. A sample has two parts.
pub fn part_bytes(format: Format) -> usize
    ensures { result ≡ width format }
{
    match format {
        Format::Cf32 => 4,
        Format::Cs16 => 2,
        Format::Cu8 => 1,
    }
}

// Bytes come lowest first.
#[tactic(auto, using(crate::proofs::Parts::word_32), unfolding(crate::specs::Parts::part_of))]
fn cf32_part(raw: [u8; 4]) -> f32
    ensures { result ≡ part_of Format.Cf32 (word_of raw) }
{
    float(u32::from_le_bytes(raw))
}

fn cs16_part(raw: [u8; 2]) -> f32
    ensures { result ≡ part_of Format.Cs16 (word_of raw) }
{
    i16::from_le_bytes(raw) as f32 / 32768.0
}

fn cu8_part(byte: u8) -> f32
    ensures { result ≡ part_of Format.Cu8 (word_of (byte ∷ [])) }
{
    (byte as f32 - 127.5) / 128.0
}

// Makes a part of each item, from the start of a buffer on, as many as both have, and tells how many. For each format it is a loop of its
// own, so that the compiler can work on several parts at once.
fn read<B: Copy, F: Fn(B) -> f32>(raw: &[B], parts: &mut [f32], part: F) -> usize
    requires { F.IsAlwaysCallable part }
    ensures count { result ≡ min (length raw.now) (length parts.old) }
    ensures long { length parts.new ≡ length parts.old }
    ensures read { (k : ℕ) (d : B) → k < result → F.post part (get_or raw.now k d) (get_or parts.new k nan) }
    ensures rest { drop result parts.new ≡ drop result parts.old }
{
    let count = parts.len().min(raw.len());
    // Written by index: of what `iter_mut` in a zip lends, nothing is known after the loop.
    for (n, item) in raw[..count].iter().enumerate() {
        parts[n] = part(*item);
    }
    count
}

// Reads parts into the start of a buffer, as many as both have, and tells how many. Left-over bytes are not read.
pub fn decode(format: Format, bytes: &[u8], parts: &mut [f32]) -> usize
    ensures count { result ≡ min (length bytes.now / width format) (length parts.old) }
    ensures parts { parts.new ≡ take result (parts_in format bytes.now) ++ drop result parts.old }
{
    match format {
        Format::Cf32 => read(bytes.as_chunks::<4>().0, parts, cf32_part),
        Format::Cs16 => read(bytes.as_chunks::<2>().0, parts, cs16_part),
        Format::Cu8 => read(bytes, parts, cu8_part),
    }
}

// Writes parts to the start of a buffer, as many as it has room for, and tells how many.
pub fn encode(parts: &[f32], bytes: &mut [u8]) -> usize
    ensures count { result ≡ min (length parts.now) (length bytes.old / 4) }
    ensures bytes { bytes.new ≡ part_bytes (take result parts.now) ++ drop (4 * result) bytes.old }
{
    let count = parts.len().min(bytes.len() / 4);
    // Written by index, as in `read`: `chunks_exact_mut` says as little.
    for (n, part) in parts[..count].iter().enumerate() {
        bytes[4 * n..4 * n + 4].copy_from_slice(&pattern(*part).to_le_bytes());
    }
    count
}
