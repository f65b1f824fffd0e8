// A new receiver, and samples one by one.
ghost use Rattle.std.specs.Prelude.{◌≡◌, OnErr, true, ◌<◌, replicate};
ghost use Rattle.dsp_types.specs.Samples.{zero_f};
ghost use Rattle.slot_receiver.specs.Receiver.{with_next, new, listen};
ghost use Rattle.slot_receiver.specs.Calls.{sample_outcome, reply_of};
ghost use Rattle.slot_receiver.specs.View.{mode_number, clock_of};
ghost use Rattle.receiver.specs.Keep.{OnlyKept, Keeps};
ghost use Rattle.receiver.specs.View.{receiver_of, Untouched};

use crate::State;
use dsp_types::{ComplexSample, Refusal, SampleCount};
use listener::Listener;
use sample_refusal::is_beyond;
use slot_receiver::{Mode, SlotReceiver};

impl State {
    // Its past is all zeros.
    #[tactic(auto, unfolding(crate::specs::View::receiver_of, slot_receiver::specs::View::receiver_from))]
    pub fn new(initial_mode: Mode) -> State
        ensures receiver { receiver_of result (replicate 2048 zero_f) (replicate 2048 zero_f) (replicate 2048 zero_f) ≡ new initial_mode }
        ensures mode { result.slots.mode ≡ mode_number initial_mode }
    {
        State {
            slots: SlotReceiver::new(initial_mode),
            next_input_sample_count: SampleCount(0),
            listener: Listener::new(),
        }
    }

    // How many samples from this counter on are only kept, since none is missing and no window closes.
    pub(crate) fn quiet_samples(&self, counter: SampleCount) -> usize
        ensures { 0 < result → OnlyKept (clock_of self.now.slots) self.now.slots.slots_since_last_valid_burst self.now.next_input_sample_count.0 counter.0 result }
    {
        if self.next_input_sample_count == counter {
            self.slots.quiet_samples(counter)
        } else {
            0
        }
    }

    // A sample that is only kept.
    #[tactic(auto, unfolding(crate::specs::View::receiver_of, slot_receiver::specs::View::receiver_from, slot_receiver::specs::Receiver::listen, slot_receiver::specs::Receiver::with_next, slot_receiver::specs::Receiver::with_signal))]
    fn keep(
        &mut self,
        re: &mut [f32; 2048],
        im: &mut [f32; 2048],
        abs: &mut [f32; 2048],
        input: ComplexSample,
        next: SampleCount,
    )
        ensures { receiver_of self.new re.new im.new abs.new ≡ with_next (listen (receiver_of self.old re.old im.old abs.old) input) next.0 }
    {
        self.listener.listen(re, im, abs, input);
        self.next_input_sample_count = next;
    }

    // Whether this sample is only kept.
    fn keeps(&self, input: ComplexSample, counter: SampleCount) -> bool
        ensures { result ≡ true → Keeps (clock_of self.now.slots) self.now.slots.slots_since_last_valid_burst self.now.next_input_sample_count.0 input counter.0 }
    {
        !(is_beyond(input.re) || is_beyond(input.im)) && 0 < self.quiet_samples(counter)
    }

    // Takes one sample, or refuses it and leaves state and past as they are.
    pub fn sample(
        &mut self,
        re: &mut [f32; 2048],
        im: &mut [f32; 2048],
        abs: &mut [f32; 2048],
        input: ComplexSample,
        sample_counter: SampleCount,
    ) -> Result<(), Refusal>
        ensures answer { reply_of result ≡ (sample_outcome (receiver_of self.old re.old im.old abs.old) input sample_counter.0).reply }
        ensures receiver { receiver_of self.new re.new im.new abs.new ≡ (sample_outcome (receiver_of self.old re.old im.old abs.old) input sample_counter.0).receiver }
        ensures refused { OnErr result (Untouched self.old self.new re.old re.new im.old im.new abs.old abs.new) }
    {
        if self.keeps(input, sample_counter) {
            self.keep(re, im, abs, input, sample_counter.plus(1));
            return Ok(());
        }
        self.hear(re, im, abs, input, sample_counter)?;
        Ok(())
    }
}
