// The calls on what a receiver holds between its samples: the slot handed over last is taken, and another receiver is followed.
#![tactic(auto)]

mod follow;
mod take;

pub use follow::sync_to_demodulator;
pub use take::take_demodulated_slot;
