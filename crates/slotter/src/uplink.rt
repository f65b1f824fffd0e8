// Uplink bursts, which a handset sends, and the window that a receiver finds one in.
ghost use Rattle.std.specs.Prelude.{◌≡◌, ◌+◌, length, IfOk};
ghost use Rattle.dsp_types.specs.Answers.{answer_number};
ghost use Rattle.dsp_types.specs.Refusals.{accepted};
ghost use Rattle.slotter.specs.Uplink.{uplink, pair_refusal, uplink_reply, normal_uplink, control_uplink, placed};

use crate::{joined, length_or_bit, training};
use dsp_types::{Refusal, not_bits};
use train_consts::{SEQ_EXT, T_BITS};

// Refuses blocks that are not of n bits.
#[tactic(auto, unfolding(crate::specs::Uplink::pair_refusal, dsp_types::specs::Refusals::wrong_length))]
fn pair_refusal(n: usize, blk1: &[u8], blk2: &[u8]) -> Result<(), Refusal>
    ensures number { answer_number result ≡ pair_refusal n blk1.now blk2.now accepted }
    ensures lengths { IfOk result (λ _. (length blk1.now ≡ n) × (length blk2.now ≡ n)) }
{
    let lengths = blk1.len() != n || blk2.len() != n;
    length_or_bit(lengths, not_bits(blk1) || not_bits(blk2))
}

// The burst of these fields between tail bits.
#[tactic(auto, unfolding(crate::specs::Uplink::uplink, train_consts::specs::Training::tail))]
fn between_tails<const N: usize>(blk1: &[u8], sequence: &[u8], blk2: &[u8]) -> [u8; N]
    requires { 8 + length blk1.now + length sequence.now + length blk2.now ≡ N }
    ensures { result ≡ uplink sequence.now blk1.now blk2.now }
{
    joined(&T_BITS, blk1, sequence, blk2, &T_BITS)
}

// Clause 9.4.4.2.4, normal uplink burst: training sequence 1 or 2, two blocks of 216 bits.
pub fn build_nub(train: u32, blk1: &[u8], blk2: &[u8]) -> Result<[u8; 462], Refusal>
    ensures { uplink_reply result ≡ normal_uplink train blk1.now blk2.now }
{
    pair_refusal(216, blk1, blk2)?;
    let sequence = training(train)?;
    Ok(between_tails(blk1, &sequence, blk2))
}

// Clause 9.4.4.2.1, control uplink burst: two blocks of 84 bits.
pub fn build_cub(blk1: &[u8], blk2: &[u8]) -> Result<[u8; 206], Refusal>
    ensures { uplink_reply result ≡ control_uplink blk1.now blk2.now }
{
    pair_refusal(84, blk1, blk2)?;
    Ok(between_tails(blk1, &SEQ_EXT, blk2))
}

// Makes the bits a window with the burst at the offset, zeros before it and behind; what does not fit is cut.
pub fn place(offset: usize, burst: &[u8], window: &mut [u8])
    ensures { window.new ≡ placed (length window.old) offset burst.now }
{
    window.fill(0);
    let start = offset.min(window.len());
    let len = burst.len().min(window.len() - start);
    window[start..start + len].copy_from_slice(&burst[..len]);
}
