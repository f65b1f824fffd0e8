// One sample is judged and, if it is not refused, heard, with zeros before it for those that are missing.
ghost use Rattle.std.specs.Prelude.{◌≡◌, OnErr, false, ◌-ℤ◌};
ghost use Rattle.std.specs.Int.Signed.{lt_z};
ghost use Rattle.slot_receiver.specs.Receiver.{valid_count, process_sample, missing, feed_zeros, zeros_before, accept};
ghost use Rattle.slot_receiver.specs.Windows.{hands_over, window_of, zeros_windows, accept_windows};
ghost use Rattle.slot_receiver.specs.Bounds.{Counter};
ghost use Rattle.receiver.specs.View.{receiver_of, Untouched};
ghost use Rattle.receiver.specs.Hearing.{Judges};

use crate::State;
use dsp_types::{ComplexSample, Refusal, SampleCount};
use listener::Past;
use sample_refusal::sample_refusal;
use slot_receiver::valid_count;

// At most so many zeros stand in for missing samples: a slot's.
const MOST_ZEROS: u64 = 1020;

// How many zeros stand in for the samples missing before the counter.
fn missing_samples(next: SampleCount, counter: SampleCount) -> usize
    requires { Counter next.0 × Counter counter.0 × (lt_z counter.0 next.0 ≡ false) }
    ensures { result ≡ missing (counter.0 -ℤ next.0) }
{
    dsp_types::unsigned(counter.since(next)).min(MOST_ZEROS) as usize
}

impl State {
    // Whether the sample handed a slot over.
    #[tactic(auto, using(crate::proofs::Samples::counted), unfolding(crate::specs::View::receiver_of, slot_receiver::specs::View::receiver_from, listener::specs::View::signal_of, slot_receiver::specs::Receiver::process_sample, slot_receiver::specs::Receiver::listen, slot_receiver::specs::Receiver::with_signal, slot_receiver::specs::Windows::window_of))]
    fn process_sample(
        &mut self,
        re: &mut [f32; 2048],
        im: &mut [f32; 2048],
        abs: &mut [f32; 2048],
        input: ComplexSample,
        counter: SampleCount,
    ) -> bool
        requires { Counter counter.0 }
        ensures handed { result ≡ hands_over (window_of (receiver_of self.old re.old im.old abs.old) input counter.0) }
        ensures state { receiver_of self.new re.new im.new abs.new ≡ process_sample (receiver_of self.old re.old im.old abs.old) input counter.0 }
    {
        self.listener.listen(re, im, abs, input);
        let past = Past {
            re,
            im,
            abs,
            index: self.listener.past_index,
        };
        self.slots.arrive(past, counter)
    }

    // Zeros for the samples that are missing before this counter, and whether one handed a slot over.
    fn catch_up(
        &mut self,
        re: &mut [f32; 2048],
        im: &mut [f32; 2048],
        abs: &mut [f32; 2048],
        counter: SampleCount,
    ) -> bool
        requires { Counter counter.0 × (lt_z counter.0 (valid_count self.old.next_input_sample_count.0) ≡ false) }
        ensures handed { result ≡ hands_over (zeros_windows (zeros_before (receiver_of self.old re.old im.old abs.old) counter.0) (receiver_of self.old re.old im.old abs.old) counter.0) }
        ensures state { receiver_of self.new re.new im.new abs.new ≡ feed_zeros (zeros_before (receiver_of self.old re.old im.old abs.old) counter.0) (receiver_of self.old re.old im.old abs.old) counter.0 }
    {
        let zero = ComplexSample { re: 0.0, im: 0.0 };
        let count = missing_samples(valid_count(self.next_input_sample_count), counter);
        let mut handed = false;
        for left in (1..=count).rev() {
            let hands = self.process_sample(re, im, abs, zero, counter.minus(left as i64));
            handed |= hands;
        }
        handed
    }

    // A sample that is not refused, and whether it or a zero before it handed a slot over.
    // `Counter` is asked for in six contracts, not held in a type: in all but `process_sample` another fact stands beside it, and
    // each counter that is passed on would be wrapped and unwrapped.
    #[tactic(auto, using(crate::proofs::Handing::accept_hands, crate::proofs::Samples::next_counter_lem), unfolding(crate::specs::View::receiver_of, slot_receiver::specs::View::receiver_from, slot_receiver::specs::Receiver::accept, slot_receiver::specs::Receiver::with_next))]
    fn accept(
        &mut self,
        re: &mut [f32; 2048],
        im: &mut [f32; 2048],
        abs: &mut [f32; 2048],
        input: ComplexSample,
        counter: SampleCount,
    ) -> bool
        requires { Counter counter.0 × (lt_z counter.0 (valid_count self.old.next_input_sample_count.0) ≡ false) }
        ensures handed { result ≡ hands_over (accept_windows (receiver_of self.old re.old im.old abs.old) input counter.0) }
        ensures state { receiver_of self.new re.new im.new abs.new ≡ accept (receiver_of self.old re.old im.old abs.old) input counter.0 }
    {
        let before = self.catch_up(re, im, abs, counter);
        let now = self.process_sample(re, im, abs, input, counter);
        self.next_input_sample_count = counter.plus(1);
        before | now
    }

    // Takes one sample, and tells whether it or a zero before it handed a slot over; or refuses it and leaves state and past as they are.
    #[tactic(auto, using(crate::proofs::Samples::not_refused), unfolding(crate::specs::View::receiver_of, slot_receiver::specs::View::receiver_from))]
    pub(crate) fn hear(
        &mut self,
        re: &mut [f32; 2048],
        im: &mut [f32; 2048],
        abs: &mut [f32; 2048],
        input: ComplexSample,
        counter: SampleCount,
    ) -> Result<bool, Refusal>
        ensures judged { Judges (receiver_of self.old re.old im.old abs.old) input counter.0 result (receiver_of self.new re.new im.new abs.new) }
        ensures refused { OnErr result (Untouched self.old self.new re.old re.new im.old im.new abs.old abs.new) }
    {
        sample_refusal(valid_count(self.next_input_sample_count), input, counter)?;
        Ok(self.accept(re, im, abs, input, counter))
    }
}
