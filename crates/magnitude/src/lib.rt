// The stand-in for `abs()` (01, "The past"): the magnitude of a complex sample, cut to an f32.
#![tactic(auto)]

ghost use Rattle.std.specs.Prelude.{◌≡◌, not, T, ◌+◌, ◌*◌, ◌/◌, ◌^◌, ◌<◌, ◌≤◌, max, IfSome};
ghost use Rattle.std.specs.Float.{binary64};
ghost use Rattle.std.specs.Float.Ieee.{is_nan, to_bits};
ghost use Rattle.magnitude.specs.Magnitude.{magnitude_of, magnitudes_in, largest, square};
ghost use Rattle.magnitude.specs.Pattern.{size_of, exponent_of, significand_of, pattern_units, packed_of};

// The bit pattern of x without its sign.
#[tactic(auto, using(crate::proofs::Parts::size_is))]
fn size(x: f32) -> u32
    requires { T (not (is_nan x)) }
    ensures { result ≡ size_of x }
{
    x.to_bits() % 0x8000_0000
}

// The patterns below 0x7f80_0000 are the finite values that are not negative, in order. Such a pattern is
// exponent * 2^23 + significand and stands for significand * 2^exponent units, a unit being 2^-149.
fn exponent(p: u32) -> u32
    ensures { result ≡ exponent_of p }
{
    (p / 0x80_0000).saturating_sub(1)
}

fn significand(p: u32) -> u64
    ensures { result ≡ significand_of p }
{
    if p < 0x80_0000 {
        p as u64
    } else {
        0x80_0000 + (p % 0x80_0000) as u64
    }
}

// n² / 4^gap, cut to a whole number.
fn shifted_square(n: u64, gap: u32) -> u64
    requires { n < 2 ^ 24 }
    ensures { result ≡ square n / 2 ^ (2 * gap) }
{
    if gap < 25 { (n * n) >> (2 * gap) } else { 0 }
}

// A guess at the square root of s = m² + z, for z ≤ m²: a chord of the root, then two of Newton's steps.
fn guessed_root(m: u64, z: u64, s: u64) -> u64
    requires { (m < 2 ^ 24) × (z < 2 ^ 48) × (s < 2 ^ 49) }
{
    if m == 0 {
        return 0;
    }
    let a = m + z / m * 106 / 256;
    let b = (a + s / a) / 2 + 1;
    (b + s / b) / 2
}

// The square root of m² + z, cut to a whole number: the guess, or one less where it is too large. Nothing is
// proved of the guess, so what comes of it is tested; it passed for all that were tried, and else `isqrt`, which is
// slower, decides.
fn root(m: u64, z: u64) -> u64
    requires { (m < 2 ^ 24) × (z < 2 ^ 48) }
    ensures { (square result ≤ square m + z) × (square m + z < square (result + 1)) }
{
    let s = m * m + z;
    let g = guessed_root(m, z, s);
    if g < 0x1ff_ffff {
        let r = if g * g <= s { g } else { g - 1 };
        if r * r <= s {
            if s < (r + 1) * (r + 1) {
                return r;
            }
        }
    }
    s.isqrt()
}

// The largest pattern that stands for at most g * 2^e units.
fn packed(e: u32, g: u64) -> u32
    requires { (e < 254) × (g < 2 ^ 25) }
    ensures { result ≡ packed_of e g }
{
    let p = if g < 0x100_0000 {
        e * 0x80_0000 + g as u32
    } else {
        (e + 1) * 0x80_0000 + (g / 2) as u32
    };
    p.min(0x7f7f_ffff)
}

// The pattern of the magnitude from those of any two parts, the larger first. In units of 2^e, e being the
// larger part's exponent, the whole part of the square root has at most 25 digits.
fn larger_first(a: u32, b: u32) -> u32
    requires { (b ≤ a) × (a < 0x7f80_0000) }
    ensures { result ≡ largest (square (pattern_units a) + square (pattern_units b)) }
{
    let e = exponent(a);
    let m = significand(a);
    let z = shifted_square(significand(b), e - exponent(b));
    packed(e, root(m, z))
}

// The same of parts in any order.
fn pattern(x: u32, y: u32) -> u32
    requires { max x y < 0x7f80_0000 }
    ensures { result ≡ largest (square (pattern_units x) + square (pattern_units y)) }
{
    larger_first(x.max(y), x.min(y))
}

// The magnitude by whole numbers, for any parts: where the quick test does not tell it.
#[tactic(auto, using(crate::proofs::Parts::finite_is, crate::proofs::Parts::size_lt, crate::proofs::Parts::zero_first, crate::proofs::Parts::zero_second, crate::proofs::Parts::largest_number))]
fn exact(re: f32, im: f32) -> f32
    ensures { result ≡ magnitude_of re im }
{
    if re.is_finite() && im.is_finite() {
        f32::from_bits(pattern(size(re), size(im)))
    } else {
        0.0
    }
}

// A guess at √x, 3.5% off at most: half the exponent, and a chord for the significand.
#[tactic(auto, using(crate::proofs::Parts::not_nan_pattern))]
fn rough_root(x: f64) -> f64
    requires { T (not (is_nan x)) × (to_bits binary64 x < 0x8000_0000_0000_0000) }
{
    f64::from_bits(0x1ff7_6800_0000_0000 + (x.to_bits() >> 1))
}

// Twice √x from a guess r: Halley's step to n / d and Newton's to n / d + x d / n, in one division. An r that is 3.5% off
// leaves 2^-34.
fn twice_root(x: f64, r: f64) -> f64 {
    let q = r * r;
    let n = r * (q + 3.0 * x);
    let d = 3.0 * q + x;
    (n * n + x * (d * d)) / (n * d)
}

// The pattern of x / 2 cut to an f32, for an x whose half is a normal one.
fn half_pattern(x: f64) -> u32
    requires { T (not (is_nan x)) }
{
    let moved = x.to_bits() % 0x4000_0000_0000_0000 + 0x07f0_0000_0000_0000;
    ((moved >> 29) % 0x1_0000_0000) as u32
}

// 2^127, which stands in `quick` for NaN and for what is above it.
const LARGE: f32 = 1.7014118e38;

// The magnitude where a test in f64 tells it. A part's square is an f64, and rounding keeps the order: where the rounded sum
// lies between the squares of an f32 and the next, so does the exact one. Nothing is proved of the guess r; all but one in
// 10,000 pass, and none that is the root exactly. `min` makes numbers of NaN and of what is too large, where the test fails.
#[tactic(auto, using(crate::proofs::Parts::not_nan_bits))]
fn quick(re: f32, im: f32) -> Option<f32>
    ensures { IfSome result (λ r. r ≡ magnitude_of re im) }
{
    let x = re.min(LARGE) as f64;
    let y = im.min(LARGE) as f64;
    let s = x * x + y * y;
    let p = half_pattern(twice_root(s, rough_root(s)).min(1.0e300)).min(0x7eff_ffff);
    let r = f32::from_bits(p);
    let low = r as f64;
    let high = f32::from_bits(p + 1) as f64;
    if low * low < s && s < high * high {
        Some(r)
    } else {
        None
    }
}

// The largest f32 whose square is not above re² + im²; 0.0 where a part is NaN or infinite.
pub fn magnitude(re: f32, im: f32) -> f32
    ensures { result ≡ magnitude_of re im }
{
    match quick(re, im) {
        Some(r) => r,
        None => exact(re, im),
    }
}

// The magnitudes of samples, as many as all three slices have room for. What is behind them in `out` stays.
#[tactic(auto, using(crate::proofs::Blocks::one_more, crate::proofs::Blocks::all_of), unfolding(crate::specs::Magnitude::magnitudes_in))]
pub fn magnitudes(re: &[f32], im: &[f32], out: &mut [f32])
    ensures { out.new ≡ magnitudes_in re.now im.now out.old }
{
    let n = re.len().min(im.len()).min(out.len());
    // By index: of what a zip over `iter_mut` lends, nothing is known after the loop.
    for i in 0..n {
        out[i] = magnitude(re[i], im[i]);
    }
}
