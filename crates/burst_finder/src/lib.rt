// Finds the burst in a slot's bits by its training sequence (train_consts.rs, and `find_sequence` and `SlotBurstFinder` of demodulator.rs).
#![tactic(auto)]

ghost use Rattle.std.specs.Prelude.{◌≡◌, ◌+◌, ◌≤◌, ◌<◌, length};
ghost use Rattle.burst_finder.specs.Search.{placings, find_sequence, below, find_sync};
ghost use Rattle.burst_finder.specs.Slots.{most_errors, type_number, kind_number, not_found, check_sequence, check_normal, check_slot, get_burst, IsChecked};

use dsp_types::Refusal;
use train_consts::{SEQ_EXT, SEQ_NORM1, SEQ_NORM2, SEQ_SYNC};

// The best placing of a sequence in bits, and how many bits differ there.
#[derive(Clone, Copy, Debug, PartialEq, Eq)]
pub struct Found {
    pub pos: usize,
    pub dist: usize,
}

#[derive(Clone, Copy, Debug, PartialEq, Eq)]
pub enum TrainingSequence {
    NotFound = 0,
    NormalTrainSeq1 = 1,
    NormalTrainSeq2 = 2,
    ExtendedTrainSeq = 3,
    SyncTrainSeq = 4,
}

impl TrainingSequence {
    // The number that the logger sees.
    pub fn number(self) -> u8
        ensures { result ≡ type_number self }
    {
        self as u8
    }
}

#[derive(Clone, Copy, Debug, PartialEq, Eq)]
pub enum SlotType {
    // Downlink slot.
    Dl = 0,
    // Uplink full slot.
    UlFull = 1,
    // Uplink subslot.
    UlSub = 2,
}

impl SlotType {
    // The number that the logger asks with.
    pub fn number(self) -> u32
        ensures { result ≡ kind_number self }
    {
        self as u32
    }
}

impl TryFrom<u32> for SlotType {
    type Error = Refusal;

    ghost use Rattle.std.specs.Prelude.{◌≡◌, Ok, Err, nat_lt, if◌then◌else◌};
    ghost use Rattle.dsp_types.specs.declared.refusals.Refusal.TheVariants.{BadKind};
    ghost use Rattle.burst_finder.specs.Slots.{slot_type_of};

    ghost try_from_gives = { λ kind r. r ≡ (if nat_lt 2 kind then Err BadKind else Ok (slot_type_of kind)) };

    #[tactic(auto, unfolding(crate::specs::Slots::slot_type_of))]
    fn try_from(kind: u32) -> Result<SlotType, Refusal> {
        match kind {
            0 => Ok(SlotType::Dl),
            1 => Ok(SlotType::UlFull),
            2 => Ok(SlotType::UlSub),
            _ => Err(Refusal::BadKind),
        }
    }
}

// The burst found in a slot's bits.
#[derive(Clone, Copy, Debug, PartialEq, Eq)]
pub struct Finding {
    pub train_type: TrainingSequence,
    // How many bits of its training sequence are wrong; 100 where there is no burst.
    pub train_errs: usize,
    // Where in the bits the burst begins, and its length.
    pub burst_pos: usize,
    pub burst_len: usize,
}

const ERRS_NO_BURST: usize = 100;

// A training sequence is accepted with at most so many wrong bits.
pub const MAX_ERRS: usize = 1;

// A placing with so many is not accepted: a search need not look further.
const TOO_MANY: usize = MAX_ERRS + 1;

// How many even placings a part of m bits has in n bits.
#[tactic(auto, unfolding(crate::specs::Search::placings))]
fn even_placings(n: usize, m: usize) -> usize
    ensures { result ≡ placings n m }
{
    n.checked_sub(m).map_or(0, |spare| spare / 2 + 1)
}

// The even placing with the fewest differences, the earliest on a tie, where it has fewer than the limit; else place 0 and the limit. A low limit makes
// for a quick search: a placing is left where it can't be better any more. The loops are 01's: the inner one is left by label.
fn find_sequence(bits: &[u8], sequence: &[u8], limit: usize) -> Found
    requires { limit ≤ length sequence.now }
    ensures { result ≡ below limit (find_sequence bits.now sequence.now) }
{
    let mut min_pos: usize = 0;
    let mut min_dist = limit;
    let count = even_placings(bits.len(), sequence.len());
    'placing: for half in 0..count {
        let position = 2 * half;
        let mut dist: usize = 0;
        for (i, wanted) in sequence.iter().enumerate() {
            if dist == min_dist {
                continue 'placing;
            }
            if bits[position + i] != *wanted {
                dist += 1;
            }
        }
        if dist < min_dist {
            min_pos = position;
            min_dist = dist;
        }
    }
    Found {
        pos: min_pos,
        dist: min_dist,
    }
}

// The search of a receiver that is not synchronized: from bit 216 on, so that the burst found can still be received whole. The place counts from there. A
// placing with more differences than are accepted would not do: then it is place 0 with one more than those.
pub fn find_sync(bits: &[u8]) -> Found
    ensures { result ≡ below (most_errors + 1) (find_sync bits.now) }
{
    find_sequence(&bits[bits.len().min(216)..], &SEQ_SYNC, TOO_MANY)
}

impl Finding {
    #[tactic(auto, unfolding(crate::specs::Slots::not_found))]
    fn not_found() -> Finding
        ensures { result ≡ not_found }
    {
        Finding {
            train_type: TrainingSequence::NotFound,
            train_errs: ERRS_NO_BURST,
            burst_pos: 0,
            burst_len: 0,
        }
    }
}

// A burst with its training sequence train_pos bits into it, at the best even place.
fn check_sequence(
    bits: &[u8],
    train_pos: usize,
    burst_len: usize,
    train_type: TrainingSequence,
    train_bits: &[u8],
) -> Option<Finding>
    requires { (train_pos + length train_bits.now ≤ burst_len) × (most_errors < length train_bits.now) }
    ensures { IsChecked result (check_sequence bits.now train_pos burst_len train_type train_bits.now most_errors) }
{
    let spare = bits.len().checked_sub(burst_len)?;
    let end = spare + train_pos + train_bits.len();
    let found = find_sequence(&bits[train_pos..end], train_bits, TOO_MANY);
    if found.dist <= MAX_ERRS {
        Some(Finding {
            train_type,
            train_errs: found.dist,
            burst_pos: found.pos,
            burst_len,
        })
    } else {
        None
    }
}

// The same for normal training sequence 1 and, where that is not found, for 2.
fn check_normal(bits: &[u8], train_pos: usize, burst_len: usize) -> Option<Finding>
    requires { train_pos + 22 ≤ burst_len }
    ensures { IsChecked result (check_normal bits.now train_pos burst_len) }
{
    check_sequence(
        bits,
        train_pos,
        burst_len,
        TrainingSequence::NormalTrainSeq1,
        &SEQ_NORM1,
    )
    .or_else(|| {
        check_sequence(
            bits,
            train_pos,
            burst_len,
            TrainingSequence::NormalTrainSeq2,
            &SEQ_NORM2,
        )
    })
}

// The first training sequence that is accepted in a slot's bits, in the order of its kind. Bits of any length are searched; the receiver's windows have
// 510, and 254 for half a slot.
pub fn check_slot(slot_type: SlotType, bits: &[u8]) -> Finding
    ensures { result ≡ check_slot slot_type bits.now }
{
    let found = match slot_type {
        SlotType::Dl => check_sequence(
            bits,
            214,
            510,
            TrainingSequence::SyncTrainSeq,
            &SEQ_SYNC,
        ).or_else(|| check_normal(bits, 244, 510)),
        SlotType::UlFull => check_normal(bits, 220, 462),
        SlotType::UlSub => {
            check_sequence(bits, 88, 206, TrainingSequence::ExtendedTrainSeq, &SEQ_EXT)
        }
    };
    found.unwrap_or_else(Finding::not_found)
}

// The burst's part of the slot's bits; empty where that does not lie within them.
#[tactic(auto, unfolding(crate::specs::Slots::get_burst))]
pub fn get_burst(bits: &[u8], pos: usize, len: usize) -> &[u8]
    ensures { result.now ≡ get_burst bits.now pos len }
{
    pos.checked_add(len)
        .and_then(|end| bits.get(pos..end))
        .unwrap_or_default()
}
