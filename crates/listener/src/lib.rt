// What a receiver keeps of the samples it heard, the filter line and the past with its magnitudes, and the windows that it reads
// from them.
#![tactic(auto)]

mod listen;
mod window;

use fir::FirComplexSym;
pub use window::{Past, Reading, Window};

// The filter line, and where the newest sample stands in the rings of the past. The rings are lent with each call, as C lends
// them, and where they change one by one: a struct of `&mut` to them would need a clause in each contract that it still holds
// the same three. Where they are only read they travel as `Past`.
#[repr(C)]
#[derive(Clone, Copy)]
pub struct Listener {
    pub matched_filter: FirComplexSym,
    pub past_index: usize,
}
