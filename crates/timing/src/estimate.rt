// Estimates symbol timing from magnitudes: they have a tone at the symbol rate, whose phase is where the symbols stand.
ghost use Rattle.std.specs.Prelude.{◌≡◌, ◌%◌};
ghost use Rattle.dsp_types.specs.Samples.{ago, zero_f};
ghost use Rattle.history.specs.History.{held_in};
ghost use Rattle.timing.specs.Estimate.{estimate_timing};

use crate::quarter_turns;
use history::recall;

// The estimate for n_symbols symbols from d steps ago on, in a ring of magnitudes whose newest stands at `at`. A delay counts modulo 2,048.
// `delay` is counted down: tried as d less 4 times the symbol, which must saturate as any count is allowed, the loop took a sixth longer.
#[tactic(auto, using(crate::proofs::Window::step_i, crate::proofs::Window::step_q), unfolding(crate::specs::Estimate::sum_i, crate::specs::Estimate::sum_q))]
pub fn estimate_timing(abs: &[f32; 2048], at: usize, d: usize, n_symbols: usize) -> f32
    ensures { result ≡ estimate_timing (λ k. ago zero_f (held_in abs.now at) (k % 2048)) d n_symbols }
{
    let mut sum_i: f32 = 0.0;
    let mut sum_q: f32 = 0.0;
    let mut delay = d;
    for _ in 0..n_symbols {
        let held = |later: usize| recall(abs, at, delay.saturating_sub(later));
        sum_i += held(0) - held(2);
        sum_q += held(1) - held(3);
        delay = delay.saturating_sub(4);
    }
    quarter_turns(sum_i, sum_q)
}
