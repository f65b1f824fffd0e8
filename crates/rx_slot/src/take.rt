// A stored slot's burst and closing counter, as they are taken.
ghost use Rattle.std.specs.Prelude.{◌≡◌, not, ◌&&◌, map, ◌%◌, eqb, leb, length};
ghost use Rattle.burst_finder.specs.Slots.{most_errors};
ghost use Rattle.rx_slot.specs.Slots.{valid_closing};
ghost use Rattle.rx_slot.specs.Views.{stored_view, valid_view, burst_shown, padded};

use crate::{RxBurst, no_burst};
use burst_finder::MAX_ERRS;
use dsp_types::SampleCount;

// Fills lent bytes with bits, and zeros behind them. A byte counts modulo 2.
fn fill(bits: &[u8], out: &mut [u8])
    ensures { out.new ≡ padded (length out.old) (map (λ b. b % 2) bits.now) }
{
    let n = bits.len().min(out.len());
    // By index: of what `iter_mut` in a zip lends, nothing is known after the loop.
    for (i, bit) in bits[..n].iter().enumerate() {
        out[i] = bit % 2;
    }
    out[n..].fill(0);
}

impl RxBurst {
    // Whether a stored burst, with so many bits, is one that a window can have left.
    fn is_found(&self, len: usize) -> bool
        ensures { result ≡ (not (eqb self.now.train_type 0) && (leb self.now.train_type 4 && (leb self.now.train_errs most_errors && not (eqb len 0)))) }
    {
        self.train_type != 0 && self.train_type <= 4 && self.train_errs <= MAX_ERRS && len != 0
    }
}

// Fills lent bytes with the view of a stored burst in a window's bits, and tells of it.
pub fn take_burst(burst: RxBurst, bits: &[u8], out: &mut [u8]) -> RxBurst
    ensures told { result ≡ burst_shown (valid_view (stored_view (length bits.now) bits.now burst)) }
    ensures bytes { out.new ≡ padded (length out.old) (valid_view (stored_view (length bits.now) bits.now burst)).bits }
{
    let part = burst_finder::get_burst(bits, burst.burst_pos, burst.burst_len);
    if burst.is_found(part.len()) {
        fill(part, out);
        return RxBurst {
            burst_len: part.len(),
            ..burst
        };
    }
    fill(&[], out);
    no_burst()
}

// A closing counter that no sample can have counts as 0.
#[tactic(auto, unfolding(crate::specs::Slots::valid_closing))]
pub fn valid_closing(counter: SampleCount) -> SampleCount
    ensures { result.0 ≡ valid_closing counter.0 }
{
    if counter.is_out_of_count() {
        SampleCount(0)
    } else {
        counter
    }
}
