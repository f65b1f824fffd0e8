// What a call answers, and the bytes lent to it, in rows of numbers and of bytes.
ghost use Rattle.std.specs.Prelude.{◌≡◌};
ghost use Rattle.dsp_types.specs.Answers.{number_of};
ghost use Rattle.slot_receiver.specs.Calls.{refused, took, reply_of, take_reply_of, in_numbers};
ghost use Rattle.rx_slot.specs.Views.{padded};
ghost use Rattle.account.specs.Runs.{lent_bytes, row_of};

use dsp_types::{Refusal, unsigned};
use rx_slot::RxSlot;

// How many numbers tell an answer.
pub(crate) const ROW: usize = 16;

// How many bytes are lent to a call, in three slices.
pub(crate) const BYTES: usize = 3072;

// A slice to lend, in 1,024 bytes: so many sevens, zeros behind them.
pub(crate) fn sevens(n: usize) -> [u8; 1024]
    ensures { result ≡ padded 1024 (lent_bytes n) }
{
    let mut bytes = [0; 1024];
    let len = n.min(1024);
    bytes[..len].fill(7);
    bytes
}

#[tactic(auto, unfolding(crate::specs::Runs::row_of))]
fn refused_row(refusal: Refusal) -> [u64; ROW]
    ensures { result ≡ row_of (refused (number_of refusal)) }
{
    let number = u64::from(refusal.number());
    [0, number, 0, 0, 0, 0, 0, 0, 0, 0, 0, 0, 0, 0, 0, 0]
}

#[tactic(auto, unfolding(crate::specs::Runs::row_of, slot_receiver::specs::Calls::in_numbers, slot_receiver::specs::Calls::reply_of))]
pub(crate) fn answer_row(answer: Result<(), Refusal>) -> [u64; ROW]
    ensures { result ≡ row_of (in_numbers (reply_of answer)) }
{
    match answer {
        Ok(()) => [1, 0, 0, 0, 0, 0, 0, 0, 0, 0, 0, 0, 0, 0, 0, 0],
        Err(refusal) => refused_row(refusal),
    }
}

#[tactic(auto, unfolding(crate::specs::Runs::row_of, crate::specs::Runs::counter_row, crate::specs::Runs::view_row))]
fn slot_row(slot: RxSlot) -> [u64; ROW]
    ensures { result ≡ row_of (took slot) }
{
    [
        2,
        u64::from(slot.time.0),
        u64::from(slot.closing_counter.0 < 0),
        unsigned(slot.closing_counter.0),
        slot.full.train_type as u64,
        slot.full.train_errs as u64,
        slot.full.burst_pos as u64,
        slot.full.burst_len as u64,
        slot.subslot1.train_type as u64,
        slot.subslot1.train_errs as u64,
        slot.subslot1.burst_pos as u64,
        slot.subslot1.burst_len as u64,
        slot.subslot2.train_type as u64,
        slot.subslot2.train_errs as u64,
        slot.subslot2.burst_pos as u64,
        slot.subslot2.burst_len as u64,
    ]
}

#[tactic(auto, unfolding(crate::specs::Runs::row_of, slot_receiver::specs::Calls::take_reply_of))]
pub(crate) fn take_row(answer: Result<RxSlot, Refusal>) -> [u64; ROW]
    ensures { result ≡ row_of (take_reply_of answer) }
{
    match answer {
        Ok(slot) => slot_row(slot),
        Err(refusal) => refused_row(refusal),
    }
}
