// What every stage shares: a complex sample, a sample count, a slot number, refusals, and the check of bit bytes.
#![tactic(auto)]

mod counts;
mod refusals;

ghost use Rattle.std.specs.Prelude.{◌≡◌, ◌*◌, ◌%◌, ◌^◌, ◌<◌, pos, ◌+ℤ◌};
ghost use Rattle.std.specs.Int.Signed.{mag};
ghost use Rattle.dsp_types.specs.Times.{slot_of, slots, div_euclid};
ghost use Rattle.dsp_types.specs.Refusals.{not_bits};

pub use refusals::{COUNTERS, LAST_COUNTER, LAST_SLOT, Refusal, SLOTS, answer_number};

// Made by the radio and by the filter, read by filter, timing and decisions.
#[derive(Clone, Copy)]
pub struct ComplexSample {
    pub re: f32,
    pub im: f32,
}

// A number of samples, or the counter of one: 72,000 a second.
#[repr(C)]
#[derive(Clone, Copy, Debug, PartialEq, Eq, PartialOrd, Ord)]
pub struct SampleCount(pub i64);

// A slot number: 4 slots, 18 frames, 60 multiframes and 65,536 hyperframes, so 0 to 283,115,519. Any stored
// number counts modulo 283,115,520.
#[repr(C)]
#[derive(Clone, Copy, Debug, Default, PartialEq, Eq)]
pub struct TdmaTime(pub u32);

// n where it is 0 or more, else −1 − n: a sign and this number give n back, and it always fits.
pub fn unsigned(n: i64) -> u64
    ensures { result ≡ mag n }
{
    if n < 0 { (-1 - n) as u64 } else { n as u64 }
}

// The whole number n modulo the number of slots.
#[tactic(auto, unfolding(crate::specs::Times::slot_of))]
fn wrapped(n: i64) -> u32
    ensures { result ≡ slot_of n }
{
    n.rem_euclid(i64::from(SLOTS)) as u32
}

impl TdmaTime {
    pub fn from_int(n: i32) -> TdmaTime
        ensures { result.0 ≡ slot_of n }
    {
        TdmaTime(wrapped(n as i64))
    }

    pub fn to_int(self) -> u32
        ensures { result ≡ self.0 % slots }
    {
        self.0 % SLOTS
    }

    pub fn add_timeslots(self, n: i32) -> TdmaTime
        ensures { result.0 ≡ slot_of (pos (self.0 % slots) +ℤ n) }
    {
        TdmaTime(wrapped(self.to_int() as i64 + n as i64))
    }

    // The counter of its first sample, where slot 0 begins at 0. Its bound keeps the slot's end from wrapping.
    pub fn start(self) -> u64
        ensures { (result ≡ self.0 * 1020) × (result < 2 ^ 42) }
    {
        u64::from(self.0) * 1020
    }
}

// n over d, rounded down. A divisor of 0 counts as 1.
#[tactic(auto, unfolding(crate::specs::Times::div_euclid, crate::specs::Times::divisor))]
pub fn div_euclid(n: i64, d: u32) -> i64
    ensures { result ≡ div_euclid n d }
{
    n.div_euclid(i64::from(d.max(1)))
}

// Whether some byte is neither 0 nor 1. It looks at every byte, so that the compiler can take many at once: `any`, which
// stops at the first, takes some fifteen times as long for the 510 bits of a slot.
pub fn not_bits(bytes: &[u8]) -> bool
    ensures { result ≡ not_bits bytes.now }
{
    let mut found = false;
    for byte in bytes {
        found |= 1 < *byte;
    }
    found
}
