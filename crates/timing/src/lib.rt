// Symbol timing (01, "Symbol timing"): the direction of the sums i and q in quarter turns, and its parts.
#![tactic(auto)]

mod estimate;

ghost use Rattle.std.specs.Prelude.{◌≡◌};
ghost use Rattle.std.specs.Float.Ieee.{lt};
ghost use Rattle.dsp_types.specs.Samples.{zero_f};
ghost use Rattle.timing.specs.Turns.{curve_of, octant_of, quadrant_of, directed, quarter_turns, whole_of, fract_of};

pub use estimate::estimate_timing;
use std::num::saturating_f32_to_usize;

// Whether (i, q) has a direction: both are numbers, and not both zero.
#[tactic(auto, using(crate::proofs::Cases::finite_is), unfolding(crate::specs::Turns::directed))]
fn is_directed(i: f32, q: f32) -> bool
    ensures { result ≡ directed i q }
{
    i.is_finite() && q.is_finite() && !(i == 0.0 && q == 0.0)
}

// A curve through (0, 0) and (1, 0.5) that stands for the arc tangent.
fn curve(z: f32) -> f32
    ensures { result ≡ curve_of z }
{
    z * (0.5 + 0.1738 * (1.0 - z))
}

// The quarter turns of the direction (a, b), neither below 0 and not both 0.
#[tactic(auto, unfolding(crate::specs::Turns::octant_of))]
fn octant(a: f32, b: f32) -> f32
    ensures { result ≡ octant_of a b }
{
    if a < b {
        1.0 - curve(a / b)
    } else {
        curve(b / a)
    }
}

// The quarter turns u of (|i|, |q|) as those of (i, q).
#[tactic(auto, unfolding(crate::specs::Turns::quadrant_of, crate::specs::Turns::wrapped_of))]
fn quadrant(i: f32, q: f32, u: f32) -> f32
    ensures { result ≡ quadrant_of (lt i zero_f) (lt q zero_f) u }
{
    if q < 0.0 {
        if i < 0.0 {
            return 2.0 + u;
        }
        let t = 4.0 - u;
        if t == 4.0 { 0.0 } else { t }
    } else if i < 0.0 {
        2.0 - u
    } else {
        u
    }
}

// The direction of (i, q) in quarter turns, from 0 to below 4.
#[tactic(auto, using(crate::proofs::Cases::absolute_is), unfolding(crate::specs::Turns::quarter_turns))]
pub fn quarter_turns(i: f32, q: f32) -> f32
    ensures { result ≡ quarter_turns i q }
{
    if is_directed(i, q) {
        quadrant(i, q, octant(i.abs(), q.abs()))
    } else {
        0.0
    }
}

// The whole quarter turns, at most 3: the first sample of a symbol in its window.
#[tactic(auto, using(crate::proofs::Cases::whole_capped))]
pub fn whole(t: f32) -> usize
    ensures { result ≡ whole_of t }
{
    saturating_f32_to_usize(t).min(3)
}

// What is left of t: how far on from that sample. std's `fract` is another number at -1 and below and from 4 on, and
// gives 0.0 for -0.0.
#[tactic(auto, using(crate::proofs::Parts::whole_lt), unfolding(crate::specs::Turns::fract_of))]
pub fn fract(t: f32) -> f32
    ensures { result ≡ fract_of t }
{
    t - whole(t) as f32
}
