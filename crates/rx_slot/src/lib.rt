// A slot that was handed over, and the bursts in its windows.
#![tactic(auto)]

mod check;
mod take;

ghost use Rattle.std.specs.Prelude.{◌≡◌};
ghost use Rattle.rx_slot.specs.Views.{no_view, burst_shown};

pub use check::checked_burst;
use dsp_types::{SampleCount, TdmaTime};
pub use take::{take_burst, valid_closing};

// A burst found in a window: its training sequence as 01's number and that one's wrong bits, its place in the window's
// bits and its length.
#[repr(C)]
#[derive(Clone, Copy)]
pub struct RxBurst {
    pub train_type: u8,
    pub train_errs: usize,
    pub burst_pos: usize,
    pub burst_len: usize,
}

// A slot that was handed over (rxtx_dev.rs `RxSlotBits`): its number, and the bursts in it and in its halves.
#[repr(C)]
#[derive(Clone, Copy)]
pub struct RxSlot {
    pub time: TdmaTime,
    // The counter of the sample, or of the zero fed for one, at which its window closed.
    pub closing_counter: SampleCount,
    pub full: RxBurst,
    pub subslot1: RxBurst,
    pub subslot2: RxBurst,
}

// No burst.
#[tactic(auto, unfolding(crate::specs::Views::no_view, crate::specs::Views::burst_shown))]
pub fn no_burst() -> RxBurst
    ensures { result ≡ burst_shown no_view }
{
    RxBurst {
        train_type: 0,
        train_errs: 100,
        burst_pos: 0,
        burst_len: 0,
    }
}
