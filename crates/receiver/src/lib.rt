// The receiver (demodulator.rs): samples in, slots with their number and bursts out. Its past is lent.
#![tactic(auto)]

mod calls;
mod feed;
mod hear;
mod sample;

use dsp_types::SampleCount;
pub use feed::{Fed, Stop};
use listener::Listener;
use slot_receiver::SlotReceiver;

// All of a receiver but its past, three rings of 2,048. C lends them as three arrays: a struct of references to them would need a
// clause in each contract that it still holds the same three.
#[repr(C)]
#[derive(Clone, Copy)]
pub struct State {
    pub slots: SlotReceiver,
    // The counter after the last accepted sample.
    pub next_input_sample_count: SampleCount,
    pub listener: Listener,
}
