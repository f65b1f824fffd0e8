// The burst in a window's bits.
ghost use Rattle.std.specs.Prelude.{◌≡◌};
ghost use Rattle.burst_finder.specs.Slots.{check_slot};
ghost use Rattle.rx_slot.specs.Views.{stored_burst};

use crate::RxBurst;
use burst_finder::SlotType;

// The burst in these bits, checked as those of a slot of this type.
#[tactic(auto, unfolding(crate::specs::Views::stored_burst))]
pub fn checked_burst(slot_type: SlotType, bits: &[u8]) -> RxBurst
    ensures { result ≡ stored_burst (check_slot slot_type bits.now) }
{
    let found = burst_finder::check_slot(slot_type, bits);
    RxBurst {
        train_type: found.train_type.number(),
        train_errs: found.train_errs,
        burst_pos: found.burst_pos,
        burst_len: found.burst_len,
    }
}
