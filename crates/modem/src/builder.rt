// The burst builders: a burst goes into bytes that are lent.
ghost use Rattle.std.specs.Prelude.{◌≡◌, Ok, Err, MatchResult};
ghost use Rattle.slotter.specs.Bursts.{sync_burst, normal_burst};
ghost use Rattle.slotter.specs.Uplink.{normal_uplink, control_uplink};
ghost use Rattle.dsp_types.specs.Answers.{answer_number};
ghost use Rattle.modem.specs.Build.{lend_refusal, lent_answer, build_refusal, lent_burst, uplink_refusal, lent_uplink};

use dsp_types::{Refusal, answer_number};
use slotter::Burst;

// Fills lent bytes, as many as the burst has, with it; or refuses, with 3 or as the builder did, and leaves them alone.
#[tactic(auto, unfolding(crate::specs::Build::lend_refusal, crate::specs::Build::lent_answer, crate::specs::Build::lent_unless, dsp_types::specs::Refusals::wrong_length))]
fn lend<const N: usize>(burst: Result<[u8; N], Refusal>, bits: &mut [u8]) -> Result<(), Refusal>
    ensures refusal { answer_number result ≡ lend_refusal N (answer_number burst.entry) bits.old }
    ensures bits { bits.new ≡ lent_answer N burst.entry bits.old }
{
    if bits.len() != N {
        return Err(Refusal::BadLength);
    }
    bits.copy_from_slice(&burst?);
    Ok(())
}

// The bits of a downlink builder's answer.
fn bits_of(built: Result<Burst, Refusal>) -> Result<[u8; 510], Refusal>
    ensures { MatchResult built (λ burst. result ≡ Ok burst.bits) (λ refusal. result ≡ Err refusal) }
{
    Ok(built?.bits)
}

// Clause 9.4.4.2.6, synchronization continuous downlink burst: blocks of 120, 30 and 216 bits.
#[unsafe(no_mangle)]
pub extern "C" fn tetra_build_sync(blk1: &[u8], bbk: &[u8], blk2: &[u8], bits: &mut [u8]) -> u32
    ensures refusal { result ≡ build_refusal (sync_burst blk1.now bbk.now blk2.now) bits.old }
    ensures bits { bits.new ≡ lent_burst (sync_burst blk1.now bbk.now blk2.now) bits.old }
{
    let built = slotter::build_sdb(blk1, bbk, blk2);
    answer_number(&lend(bits_of(built), bits))
}

// Clause 9.4.4.2.5, normal continuous downlink burst: training sequence 1 or 2, blocks of 216, 30 and 216 bits.
#[unsafe(no_mangle)]
pub extern "C" fn tetra_build_normal(
    train: u32,
    blk1: &[u8],
    bbk: &[u8],
    blk2: &[u8],
    bits: &mut [u8],
) -> u32
    ensures refusal { result ≡ build_refusal (normal_burst train blk1.now bbk.now blk2.now) bits.old }
    ensures bits { bits.new ≡ lent_burst (normal_burst train blk1.now bbk.now blk2.now) bits.old }
{
    let built = slotter::build_ndb(train, blk1, bbk, blk2);
    answer_number(&lend(bits_of(built), bits))
}

// Clause 9.4.4.2.4, normal uplink burst: training sequence 1 or 2, two blocks of 216 bits.
#[tactic(auto, using(crate::proofs::Building::uplink_refusal_lem, crate::proofs::Building::uplink_left))]
#[unsafe(no_mangle)]
pub extern "C" fn tetra_build_normal_uplink(
    train: u32,
    blk1: &[u8],
    blk2: &[u8],
    bits: &mut [u8],
) -> u32
    ensures refusal { result ≡ uplink_refusal 462 (normal_uplink train blk1.now blk2.now) bits.old }
    ensures bits { bits.new ≡ lent_uplink 462 (normal_uplink train blk1.now blk2.now) bits.old }
{
    let built = slotter::build_nub(train, blk1, blk2);
    answer_number(&lend(built, bits))
}

// Clause 9.4.4.2.1, control uplink burst: two blocks of 84 bits.
#[tactic(auto, using(crate::proofs::Building::uplink_refusal_lem, crate::proofs::Building::uplink_left))]
#[unsafe(no_mangle)]
pub extern "C" fn tetra_build_control_uplink(blk1: &[u8], blk2: &[u8], bits: &mut [u8]) -> u32
    ensures refusal { result ≡ uplink_refusal 206 (control_uplink blk1.now blk2.now) bits.old }
    ensures bits { bits.new ≡ lent_uplink 206 (control_uplink blk1.now blk2.now) bits.old }
{
    let built = slotter::build_cub(blk1, blk2);
    answer_number(&lend(built, bits))
}
