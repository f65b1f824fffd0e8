// A sample has arrived: the slots that its counter has passed are skipped, and a window closes if this is its time.
ghost use Rattle.std.specs.Prelude.{◌≡◌, List, ℤ, pos, ◌-ℤ◌};
ghost use Rattle.dsp_types.specs.declared.ComplexSample.{ComplexSample};
ghost use Rattle.dsp_types.specs.Ints.{eq_z};
ghost use Rattle.dsp_types.specs.Times.{fitted};
ghost use Rattle.listener.specs.Signal.{Signal};
ghost use Rattle.listener.specs.View.{signal_in};
ghost use Rattle.slot_receiver.specs.Receiver.{valid_count, skipped, closes, close_if, arrive};
ghost use Rattle.slot_receiver.specs.Windows.{hands_over, window_if, window_at};
ghost use Rattle.slot_receiver.specs.View.{clock_of, receiver_from};
ghost use Rattle.slot_receiver.specs.Bounds.{Timed, Counter};

use crate::SlotReceiver;
use crate::clock::tdiff;
use crate::valid::valid_count;
use dsp_types::SampleCount;
use listener::Past;

impl SlotReceiver {
    #[tactic(auto, unfolding(crate::specs::View::receiver_from, crate::specs::Receiver::skipped, crate::specs::Receiver::tdiff))]
    fn skip_passed(&mut self, counter: SampleCount)
        requires { Timed (clock_of self.old) self.old.slots_since_last_valid_burst × Counter counter.0 }
        ensures { (next : ℤ) (s : Signal) → receiver_from self.new next s ≡ skipped (receiver_from self.old next s) counter.0 }
    {
        self.skip_slots(tdiff(counter, self.slot_ready_time));
    }

    // Whether its window closes at this counter.
    fn closes(&self, counter: SampleCount) -> bool
        ensures { result ≡ eq_z (fitted (counter.0 -ℤ pos 16)) self.now.slot_ready_time.0 }
    {
        counter.minus(16) == self.slot_ready_time
    }

    // Whether a slot was handed over: in Dl and in Ul a window hands one over.
    fn close_if_ready(&mut self, past: Past, counter: SampleCount) -> bool
        requires { Timed (clock_of self.old) self.old.slots_since_last_valid_burst × Counter counter.0 }
        ensures handed { (next : ℤ) (inputs : List ComplexSample) → let a = receiver_from self.old next (signal_in inputs past.entry) in result ≡ hands_over (window_if (closes a counter.0) a counter.0) }
        ensures slots { (next : ℤ) (inputs : List ComplexSample) → let a = receiver_from self.old next (signal_in inputs past.entry) in receiver_from self.new next (signal_in inputs past.entry) ≡ close_if (closes a counter.0) a counter.0 }
    {
        if !self.closes(counter) {
            return false;
        }
        let handed = self.mode().hands_over();
        self.close_window(past, counter);
        handed
    }

    // The newest sample of the past has this counter. A counter that no sample can have counts as 0. Whether a slot was handed over.
    pub fn arrive(&mut self, past: Past, counter: SampleCount) -> bool
        ensures handed { (next : ℤ) (inputs : List ComplexSample) → result ≡ hands_over (window_at (receiver_from self.old next (signal_in inputs past.entry)) (valid_count counter.0)) }
        ensures slots { (next : ℤ) (inputs : List ComplexSample) → receiver_from self.new next (signal_in inputs past.entry) ≡ arrive (receiver_from self.old next (signal_in inputs past.entry)) (valid_count counter.0) }
    {
        let at = valid_count(counter);
        self.make_valid();
        self.skip_passed(at);
        self.close_if_ready(past, at)
    }
}
