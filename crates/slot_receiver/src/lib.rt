// The receiver between its samples (demodulator.rs): which slot is current, when its window closes and what it hands over. What
// was heard is lent by the caller; slot_calls has the calls on what was handed over.
#![tactic(auto)]

mod arrive;
mod clock;
mod modes;
mod new;
mod quiet;
mod search;
mod valid;
mod window;

use dsp_types::{SampleCount, TdmaTime};
use rx_slot::RxSlot;
pub use valid::valid_count;

#[derive(Clone, Copy, Debug, PartialEq, Eq)]
pub enum Mode {
    // Do nothing: an uplink receiver whose downlink receiver is unsynchronized.
    Idle = 0,
    // Downlink, slot timing unknown: look for a synchronization sequence in overlapping windows.
    DlUnsynchronized = 1,
    // Downlink with known slot timing.
    Dl = 2,
    // Uplink.
    Ul = 3,
}

// Mode and training sequences are stored as numbers: C holds this struct, and no exported struct holds an enum. A stored number that no
// call could have left counts as a valid one, so that what holds of valid ones stands in contracts, and not in the type.
#[repr(C)]
#[derive(Clone, Copy)]
pub struct SlotReceiver {
    // That of a Mode.
    pub mode: u8,
    // Sample counter at the beginning of hyperframe number 0.
    pub reference_time: SampleCount,
    // Sample counter when the current slot is ready to be demodulated from past samples.
    pub slot_ready_time: SampleCount,
    pub current_slot: TdmaTime,
    // Tracks slot timing in the downlink.
    pub averaged_timing_error: f32,
    pub slots_since_last_valid_burst: u32,
    // The slot demodulated last, whether it waits to be taken, and its windows' bits: 510, and 254 of each half.
    pub demodulated_slot_available: bool,
    pub demodulated_slot: RxSlot,
    pub full_bits: [u8; 510],
    pub subslot1_bits: [u8; 510],
    pub subslot2_bits: [u8; 510],
}
