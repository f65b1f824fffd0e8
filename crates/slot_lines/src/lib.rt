// The lines that samples print: each slot that they hand over is taken, and its line made.
#![tactic(auto)]

mod links;
mod listen;

pub use links::{Links, first_samples, hear_links};
pub use listen::{Heard, hear};
pub use slot_text::Style;
