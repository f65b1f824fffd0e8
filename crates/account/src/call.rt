// One call on a receiver, and what it comes to in numbers and bytes.
ghost use Rattle.std.specs.Prelude.{◌≡◌, ◌++◌};
ghost use Rattle.demodulator.specs.View.{view_of};
ghost use Rattle.account.specs.CallList.{take};
ghost use Rattle.account.specs.Runs.{lent_bytes, call_of, Makes};

use crate::write::{BYTES, ROW, answer_row, sevens, take_row};
use demodulator::Demodulator;
use dsp_types::{ComplexSample, SampleCount};

// A sample with its counter, a take into slices of these lengths, at most 1,024, or an order to follow the other receiver.
#[derive(Clone, Copy)]
pub enum Call {
    Sample(ComplexSample, SampleCount),
    Take(usize, usize, usize),
    Follow,
}

// What a call answers, in numbers, and the bytes lent to it.
#[derive(Clone, Copy)]
pub(crate) struct Made {
    pub told: [u64; ROW],
    pub lent: [u8; BYTES],
}

fn joined(a: &[u8; 1024], b: &[u8; 1024], c: &[u8; 1024]) -> [u8; BYTES]
    ensures { result ≡ a.now ++ (b.now ++ c.now) }
{
    let mut all = [0; BYTES];
    all[..1024].copy_from_slice(a);
    all[1024..2048].copy_from_slice(b);
    all[2048..].copy_from_slice(c);
    all
}

// A take into slices of these lengths, at most 1,024, each byte 7.
fn take(receiver: &mut Demodulator, slot: usize, subslot1: usize, subslot2: usize) -> Made
    ensures { Makes (view_of receiver.old) (take (lent_bytes slot) (lent_bytes subslot1) (lent_bytes subslot2)) (view_of receiver.new) result.told result.lent }
{
    let mut a = sevens(slot);
    let mut b = sevens(subslot1);
    let mut c = sevens(subslot2);
    let full = slot.min(1024);
    let first = subslot1.min(1024);
    let second = subslot2.min(1024);
    let taken = receiver.take_demodulated_slot(&mut a[..full], &mut b[..first], &mut c[..second]);
    Made {
        told: take_row(taken),
        lent: joined(&a, &b, &c),
    }
}

pub(crate) fn one_call(receiver: &mut Demodulator, call: Call, other: &Demodulator) -> Made
    ensures { Makes (view_of receiver.old) (call_of (view_of other.now) call) (view_of receiver.new) result.told result.lent }
{
    match call {
        Call::Sample(input, counter) => Made {
            told: answer_row(receiver.sample(input, counter)),
            lent: [0; BYTES],
        },
        Call::Take(slot, subslot1, subslot2) => take(receiver, slot, subslot1, subslot2),
        Call::Follow => Made {
            told: answer_row(receiver.sync_to_demodulator(other)),
            lent: [0; BYTES],
        },
    }
}
