// Downlink bursts: the builders of slotter.rs, with the phase adjustment bits that EN 300 392-2 has. Uplink bursts: uplink.rt.
#![tactic(auto)]

mod uplink;

ghost use Rattle.std.specs.Prelude.{◌≡◌, ◌+◌, ◌*◌, ◌%◌, ◌≤◌, ◌++◌, false, length, take, drop, Ok, IfOk};
ghost use Rattle.std.proofs.Math.Seq.{paste};
ghost use Rattle.dsp_types.specs.Answers.{answer_number};
ghost use Rattle.dsp_types.specs.Refusals.{accepted};
ghost use Rattle.dsp_types.specs.Phases.{phase_of};
ghost use Rattle.slotter.specs.Phases.{phase_sum, adjustment};
ghost use Rattle.slotter.specs.Bursts.{training_of, length_or_bit, block_refusal, training_refusal, builder_reply, burst_unless, sync_burst, normal_burst};

use dsp_types::{Refusal, not_bits};
use train_consts::{FREQ_CORRECTION, SEQ_NORM1, SEQ_NORM2, SEQ_NORM3, SEQ_SYNC};
pub use uplink::{build_cub, build_nub, place};

// A downlink burst.
#[derive(Clone, Copy)]
pub struct Burst {
    // The sums of the phases of the first and of the last window, in eighths of a turn.
    pub first_sum: i32,
    pub last_sum: i32,
    pub bits: [u8; 510],
}

// Writes a field into a burst, from place `at` on, and gives the place behind it.
fn put(bits: &mut [u8], at: usize, field: &[u8]) -> usize
    requires { at + length field.now ≤ length bits.old }
    ensures { (result ≡ at + length field.now) × (length bits.new ≡ length bits.old) × (bits.new ≡ paste bits.old at field.now (length field.now)) }
{
    let end = at + field.len();
    bits[at..end].copy_from_slice(field);
    end
}

// Five fields, one behind the other.
fn joined<const N: usize>(a: &[u8], b: &[u8], c: &[u8], d: &[u8], e: &[u8]) -> [u8; N]
    requires { length a.now + length b.now + length c.now + length d.now + length e.now ≡ N }
    ensures { result ≡ a.now ++ b.now ++ c.now ++ d.now ++ e.now }
{
    let mut bits = [0; N];
    let mut at = put(&mut bits, 0, a);
    at = put(&mut bits, at, b);
    at = put(&mut bits, at, c);
    at = put(&mut bits, at, d);
    put(&mut bits, at, e);
    bits
}

// The phase of a symbol of two bits, in eighths of a turn.
#[tactic(auto, unfolding(dsp_types::specs::Phases::phase_of))]
fn phase_of(first: u8, second: u8) -> i32
    ensures { result ≡ phase_of first second }
{
    match (first, second) {
        (0, 0) => 1,
        (0, _) => 3,
        (_, 0) => -1,
        _ => -3,
    }
}

// The sum of the phases of a window's symbols.
fn sum_up_phase(bits: &[u8]) -> i32
    requires { length bits.now ≤ 510 }
    ensures { result ≡ phase_sum bits.now }
{
    let mut sum = 0;
    let (symbols, _) = bits.as_chunks::<2>();
    for [first, second] in symbols {
        sum += phase_of(*first, *second);
    }
    sum
}

// The adjustment bits of a window with that sum, which is odd: the symbol whose phase takes it to a multiple of 8.
fn phase_adj_bits(sum: i32) -> [u8; 2]
    ensures { result ≡ adjustment sum }
{
    match sum.rem_euclid(8) {
        7 => [0, 0],
        5 => [0, 1],
        1 => [1, 0],
        _ => [1, 1],
    }
}

// Refuses with 3 where a block has another length, and with 4 where a byte of one is no bit.
#[tactic(auto, unfolding(crate::specs::Bursts::length_or_bit))]
fn length_or_bit(lengths: bool, bits: bool) -> Result<(), Refusal>
    ensures number { answer_number result ≡ length_or_bit lengths bits accepted }
    ensures lengths { IfOk result (λ _. lengths ≡ false) }
{
    if lengths {
        return Err(Refusal::BadLength);
    }
    if bits { Err(Refusal::BadBit) } else { Ok(()) }
}

// Refuses blocks that are not of n, 30 and 216 bits.
#[tactic(auto, unfolding(crate::specs::Bursts::block_refusal, dsp_types::specs::Refusals::wrong_length))]
fn block_refusal(n: usize, blk1: &[u8], bbk: &[u8], blk2: &[u8]) -> Result<(), Refusal>
    ensures number { answer_number result ≡ block_refusal n blk1.now bbk.now blk2.now accepted }
    ensures lengths { IfOk result (λ _. (length blk1.now ≡ n) × (length bbk.now ≡ 30) × (length blk2.now ≡ 216)) }
{
    let lengths = blk1.len() != n || bbk.len() != 30 || blk2.len() != 216;
    length_or_bit(lengths, not_bits(blk1) || not_bits(bbk) || not_bits(blk2))
}

// The normal training sequence with that number, 1 or 2; another number is refused with 5. It comes as a number, since 01 gives
// every number an answer.
#[tactic(auto, unfolding(crate::specs::Bursts::training_refusal, crate::specs::Bursts::training_of, train_consts::specs::Training::normal1, train_consts::specs::Training::normal2))]
fn training(train: u32) -> Result<[u8; 22], Refusal>
    ensures number { answer_number result ≡ training_refusal train }
    ensures sequence { IfOk result (λ bits. bits ≡ training_of train) }
{
    match train {
        1 => Ok(SEQ_NORM1),
        2 => Ok(SEQ_NORM2),
        _ => Err(Refusal::BadTraining),
    }
}

// The burst with these fields between its adjustment symbols. Its first window ends with the symbol `last`.
fn framed(last: usize, fields: &[u8; 484]) -> Burst
    requires { (7 ≤ last) × (last ≤ 249) }
    ensures { builder_reply (Ok result) ≡ burst_unless 0 last fields.now }
{
    let (first, second) = fields.split_at(2 * (last - 7));
    let first_sum = sum_up_phase(first);
    let last_sum = sum_up_phase(second);
    let before = phase_adj_bits(first_sum);
    let behind = phase_adj_bits(last_sum);
    Burst {
        first_sum,
        last_sum,
        bits: joined(&SEQ_NORM3[10..], &before, fields, &behind, &SEQ_NORM3[..10]),
    }
}

// Clause 9.4.4.2.6, synchronization continuous downlink burst: blocks of 120, 30 and 216 bits.
pub fn build_sdb(blk1: &[u8], bbk: &[u8], blk2: &[u8]) -> Result<Burst, Refusal>
    ensures { builder_reply result ≡ sync_burst blk1.now bbk.now blk2.now }
{
    block_refusal(120, blk1, bbk, blk2)?;
    let fields = joined(&FREQ_CORRECTION, blk1, &SEQ_SYNC, bbk, blk2);
    Ok(framed(108, &fields))
}

// Clause 9.4.4.2.5, normal continuous downlink burst: training sequence 1 or 2, blocks of 216, 30 and 216 bits.
pub fn build_ndb(train: u32, blk1: &[u8], bbk: &[u8], blk2: &[u8]) -> Result<Burst, Refusal>
    ensures { builder_reply result ≡ normal_burst train blk1.now bbk.now blk2.now }
{
    block_refusal(216, blk1, bbk, blk2)?;
    let sequence = training(train)?;
    let (front, back) = bbk.split_at(14);
    let fields = joined(blk1, front, &sequence, back, blk2);
    Ok(framed(122, &fields))
}
