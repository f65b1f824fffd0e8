// The sender (modulator.rs): slots of bits in, samples out.
#![tactic(auto)]

mod block;
mod sender;

pub use block::Sent;
pub use mapper::{DqpskMapper, Due};
pub use sender::Modulator;
