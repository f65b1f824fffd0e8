// A block of samples in one call.
ghost use Rattle.std.specs.Prelude.{◌≡◌, false, ◌++◌, ◌+◌, ◌*◌, ◌/◌, ◌≤◌, length, take, drop};
ghost use Rattle.fir.specs.Fir.{samples_of};
ghost use Rattle.receiver.specs.Feed.{interleaved, stopped, feed_of};
ghost use Rattle.receiver.specs.Keep.{keep_all, any_beyond, first_of};
ghost use Rattle.receiver.specs.View.{receiver_of, Untouched};

use crate::State;
use dsp_types::{ComplexSample, Refusal, SampleCount};
use sample_refusal::is_beyond;

// So many samples are kept at once: no more than a listener takes.
const PIECE: usize = 512;

// Why no more samples were taken: there were no more, a slot was handed over, or the next one is refused.
#[derive(Clone, Copy, Debug, PartialEq, Eq)]
pub enum Stop {
    End,
    Slot,
    Refused(Refusal),
}

#[derive(Clone, Copy, Debug, PartialEq, Eq)]
pub struct Fed {
    pub taken: usize,
    pub stop: Stop,
}

// Writes the parts of samples from the one numbered `at` on, at most so many, up to one that is too large. Returns how many. Written by
// index: of two rows that are written through one zip, nothing is known after the loop.
fn parts_of(samples: &[f32], at: usize, most: usize, re: &mut [f32], im: &mut [f32]) -> usize
    requires { (at ≤ length samples.now / 2) × (length re.old ≡ 512) × (length im.old ≡ 512) }
    ensures few { (result ≤ most) × (result ≤ 512) × (at + result ≤ length samples.now / 2) }
    ensures fine { any_beyond (first_of result re.new im.new) ≡ false }
    ensures same { interleaved (drop (2 * at) samples.now) ≡ first_of result re.new im.new ++ interleaved (drop (2 * (at + result)) samples.now) }
    ensures long { (length re.new ≡ 512) × (length im.new ≡ 512) }
{
    let pairs = samples[2 * at..].as_chunks::<2>().0;
    let room = pairs.len().min(most).min(PIECE);
    for (len, [x, y]) in pairs[..room].iter().enumerate() {
        // Both parts are tested: one branch for each sample.
        if is_beyond(*x) | is_beyond(*y) {
            return len;
        }
        re[len] = *x;
        im[len] = *y;
    }
    room
}

impl State {
    // Samples that are only kept.
    #[tactic(auto, unfolding(crate::specs::View::receiver_of, slot_receiver::specs::View::receiver_from, crate::specs::Keep::keep_all, slot_receiver::specs::Receiver::with_next, slot_receiver::specs::Receiver::with_signal))]
    fn keep_all(
        &mut self,
        re: &mut [f32; 2048],
        im: &mut [f32; 2048],
        abs: &mut [f32; 2048],
        x: &[f32],
        y: &[f32],
        next: SampleCount,
    )
        ensures { receiver_of self.new re.new im.new abs.new ≡ keep_all (receiver_of self.old re.old im.old abs.old) (take 512 (samples_of x.now y.now)) next.0 }
    {
        self.listener.listen_all(re, im, abs, x, y);
        self.next_input_sample_count = next;
    }

    // Takes samples, re and im in turn, with the counters from first on: up to one that hands a slot over, or to one
    // that is refused, which is not taken. Where none is taken, state and past stay as they are.
    pub fn feed(
        &mut self,
        re: &mut [f32; 2048],
        im: &mut [f32; 2048],
        abs: &mut [f32; 2048],
        samples: &[f32],
        first: SampleCount,
    ) -> Fed
        ensures taken { result.taken ≡ (feed_of (receiver_of self.old re.old im.old abs.old) (interleaved samples.now) first.0).taken }
        ensures stop { stopped result.stop ≡ (feed_of (receiver_of self.old re.old im.old abs.old) (interleaved samples.now) first.0).stop }
        ensures receiver { receiver_of self.new re.new im.new abs.new ≡ (feed_of (receiver_of self.old re.old im.old abs.old) (interleaved samples.now) first.0).receiver }
        ensures refused { result.taken ≡ 0 → Untouched self.old self.new re.old re.new im.old im.new abs.old abs.new }
    {
        let mut x = [0.0f32; PIECE];
        let mut y = [0.0f32; PIECE];
        let mut counter = first;
        let mut taken: usize = 0;
        // A step is a row of any length, or one sample: no walk over items.
        while taken < samples.len() / 2 {
            let len = parts_of(samples, taken, self.quiet_samples(counter), &mut x, &mut y);
            if 0 < len {
                counter = counter.plus(len as i64);
                self.keep_all(re, im, abs, &x[..len], &y[..len], counter);
                taken += len;
                continue;
            }
            let input = ComplexSample {
                re: samples[2 * taken],
                im: samples[2 * taken + 1],
            };
            match self.hear(re, im, abs, input, counter) {
                Err(refusal) => {
                    return Fed {
                        taken,
                        stop: Stop::Refused(refusal),
                    };
                }
                Ok(handed) => {
                    counter = counter.plus(1);
                    taken += 1;
                    if handed {
                        return Fed {
                            taken,
                            stop: Stop::Slot,
                        };
                    }
                }
            }
        }
        Fed {
            taken,
            stop: Stop::End,
        }
    }
}
