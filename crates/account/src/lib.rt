// Demand 3, document 01's claim about a whole list of calls: stated in specs/Account.antt, proved in proofs/Demand.antt. Here
// any list of calls is made through the receiver's public functions, and carries it, with what each call answers.
#![tactic(auto)]

mod call;
mod write;

ghost use Rattle.std.specs.Prelude.{◌≡◌, length};
ghost use Rattle.demodulator.specs.View.{view_of};
ghost use Rattle.account.specs.Runs.{room_in, calls_in, Ran};

pub use call::Call;
use call::one_call;
use demodulator::Demodulator;
use slot_receiver::Mode;
use write::{BYTES, ROW};

// How many calls there is room for in so many numbers and so many bytes.
#[tactic(auto, unfolding(crate::specs::Runs::room_in))]
fn room(told: usize, lent: usize) -> usize
    ensures { result ≡ room_in told lent }
{
    (told / ROW).min(lent / BYTES)
}

// Makes calls in order on a new searching downlink receiver, as many as there is room for. Of each it writes what it answered,
// a row of numbers, and the bytes lent to it, 1,024 for each of three slices.
pub fn run_calls(
    calls: &[Call],
    other: &Demodulator,
    told: &mut [u64],
    lent: &mut [u8],
) -> Demodulator
    ensures { Ran (calls_in (view_of other.now) calls.now (room_in (length told.old) (length lent.old))) (view_of result) told.old told.new lent.old lent.new }
{
    let mut receiver = Demodulator::new(Mode::DlUnsynchronized);
    let count = calls.len().min(room(told.len(), lent.len()));
    // Written by index: of what `chunks_exact_mut` lends, nothing is known after the loop.
    for (i, call) in calls[..count].iter().enumerate() {
        let made = one_call(&mut receiver, *call, other);
        told[ROW * i..ROW * i + ROW].copy_from_slice(&made.told);
        lent[BYTES * i..BYTES * i + BYTES].copy_from_slice(&made.lent);
    }
    receiver
}
