// The past (history.rs): the newest 2,048 filtered samples and beside each its magnitude, in rings with one index.
#![tactic(auto)]

ghost use Rattle.std.specs.Prelude.{◌≡◌, ◌+◌, ◌≤◌, ◌%◌, length, replicate};
ghost use Rattle.dsp_types.specs.Samples.{zero_f, ago};
ghost use Rattle.history.specs.History.{held_in, held_after};

// What is kept of the past: three rings, since C lends them one by one, and the compiler works on several elements of one ring at
// once. Where their newest element stands is kept beside them.
#[repr(C)]
#[derive(Clone, Copy)]
pub struct History {
    pub re: [f32; 2048],
    pub im: [f32; 2048],
    pub abs: [f32; 2048],
}

// The place after `at`.
fn next(at: usize) -> usize
    ensures { result ≡ (at % 2048 + 1) % 2048 }
{
    (at % 2048 + 1) % 2048
}

// The element `delay` steps ago of a ring whose newest stands at `at`. A delay counts modulo 2,048.
#[tactic(auto, using(crate::proofs::Laws::recalled))]
pub fn recall(ring: &[f32; 2048], at: usize, delay: usize) -> f32
    ensures { result ≡ ago zero_f (held_in ring.now at) (delay % 2048) }
{
    ring[(at % 2048 + 2048 - delay % 2048) % 2048]
}

// `store` of a run that fits before the ring's end: its places follow each other, so that it is copied at once.
fn store_run(ring: &mut [f32; 2048], at: usize, from: &[f32]) -> usize
    requires { (at % 2048 + 1) % 2048 + length from.now ≤ 2048 }
    ensures value { result ≡ (at % 2048 + length from.now) % 2048 }
    ensures result_after { held_in ring.new result ≡ held_after (held_in ring.old at) from.now }
{
    let start = next(at);
    ring[start..start + from.len()].copy_from_slice(from);
    (at % 2048 + from.len()) % 2048
}

// Writes `from`, oldest first, into a ring whose newest stands at `at`, and returns where the newest then stands. The first run ends
// with the ring, and each one behind it begins with the ring.
pub fn store(ring: &mut [f32; 2048], at: usize, from: &[f32]) -> usize
    ensures index { result ≡ (at % 2048 + length from.now) % 2048 }
    ensures held { held_in ring.new result ≡ held_after (held_in ring.old at) from.now }
{
    let (run, behind) = from.split_at(from.len().min(2048 - next(at)));
    let mut newest = store_run(ring, at, run);
    for run in behind.chunks(2048) {
        newest = store_run(ring, newest, run);
    }
    newest
}

impl History {
    // Zeros, wherever the newest stands.
    pub fn new() -> History
        ensures { (result.re ≡ replicate 2048 zero_f) × (result.im ≡ replicate 2048 zero_f) × (result.abs ≡ replicate 2048 zero_f) }
    {
        History {
            re: [0.0; 2048],
            im: [0.0; 2048],
            abs: [0.0; 2048],
        }
    }
}
