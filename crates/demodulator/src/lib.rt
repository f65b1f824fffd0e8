// The receiver with its own past (demodulator.rs): the reference. The calls are those on a state, with that past lent.
#![tactic(auto)]

ghost use Rattle.std.specs.Prelude.{◌≡◌, OnOk, OnErr, [], ◌∷◌};
ghost use Rattle.slot_receiver.specs.Receiver.{new};
ghost use Rattle.slot_receiver.specs.Calls.{sample_outcome, take_outcome, follow_outcome, reply_of, take_reply_of, in_numbers};
ghost use Rattle.slot_receiver.specs.View.{mode_number, mode_of, mode_following};
ghost use Rattle.demodulator.specs.View.{view_of};

use dsp_types::{ComplexSample, Refusal, SampleCount};
use history::History;
use receiver::State;
use rx_slot::RxSlot;
use slot_receiver::Mode;

#[repr(C)]
#[derive(Clone, Copy)]
pub struct Demodulator {
    pub state: State,
    pub past: History,
}

impl Demodulator {
    #[tactic(auto, unfolding(crate::specs::View::view_of))]
    pub fn new(initial_mode: Mode) -> Demodulator
        ensures receiver { view_of result ≡ new initial_mode }
        ensures mode { result.state.slots.mode ≡ mode_number initial_mode }
    {
        Demodulator {
            state: State::new(initial_mode),
            past: History::new(),
        }
    }

    // Takes one sample, or refuses it and stays as it is.
    #[tactic(auto, unfolding(crate::specs::View::view_of))]
    pub fn sample(
        &mut self,
        input: ComplexSample,
        sample_counter: SampleCount,
    ) -> Result<(), Refusal>
        ensures answer { reply_of result ≡ (sample_outcome (view_of self.old) input sample_counter.0).reply }
        ensures receiver { view_of self.new ≡ (sample_outcome (view_of self.old) input sample_counter.0).receiver }
        ensures refused { OnErr result (self.new ≡ self.old) }
    {
        let past = &mut self.past;
        self.state.sample(
            &mut past.re,
            &mut past.im,
            &mut past.abs,
            input,
            sample_counter,
        )
    }

    // Takes the slot that waits: its views fill 510, 254 and 254 lent bytes. Or refuses, and everything stays as it is.
    #[tactic(auto, unfolding(crate::specs::View::view_of))]
    pub fn take_demodulated_slot(
        &mut self,
        slot: &mut [u8],
        subslot1: &mut [u8],
        subslot2: &mut [u8],
    ) -> Result<RxSlot, Refusal>
        ensures answer { take_reply_of result ≡ in_numbers (take_outcome (view_of self.old) slot.old subslot1.old subslot2.old).reply }
        ensures receiver { view_of self.new ≡ (take_outcome (view_of self.old) slot.old subslot1.old subslot2.old).receiver }
        ensures lent { slot.new ∷ subslot1.new ∷ subslot2.new ∷ [] ≡ (take_outcome (view_of self.old) slot.old subslot1.old subslot2.old).lent }
        ensures refused { OnErr result (self.new ≡ self.old) }
    {
        self.state.take_demodulated_slot(slot, subslot1, subslot2)
    }

    // Takes the slot timing of another receiver. A receiver that finds its own is refused.
    #[tactic(auto, unfolding(crate::specs::View::view_of))]
    pub fn sync_to_demodulator(&mut self, demod: &Demodulator) -> Result<(), Refusal>
        ensures answer { reply_of result ≡ (follow_outcome (view_of self.old) (view_of demod.now)).reply }
        ensures receiver { view_of self.new ≡ (follow_outcome (view_of self.old) (view_of demod.now)).receiver }
        ensures mode { OnOk result (self.new.state.slots.mode ≡ mode_following (mode_of demod.now.state.slots.mode) self.old.state.slots.mode) }
        ensures refused { OnErr result (self.new ≡ self.old) }
    {
        self.state.sync_to_demodulator(&demod.state)
    }
}
