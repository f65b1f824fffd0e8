// The sender: its pulse shaping filter, and one sample a call.
ghost use Rattle.std.specs.Prelude.{◌≡◌, OnErr, replicate};
ghost use Rattle.std.specs.Option.{option_copied};
ghost use Rattle.dsp_types.specs.Samples.{silence};
ghost use Rattle.fir.specs.Fir.{line_of};
ghost use Rattle.mapper.specs.Due.{due_of};
ghost use Rattle.modulator.specs.Sender.{sender_reply, sender_of, tells, sender_after};

use dsp_types::{ComplexSample, Refusal, SampleCount, TdmaTime};
use fir::FirComplexSym;
use mapper::{DqpskMapper, due_now};

#[repr(C)]
#[derive(Clone, Copy)]
pub struct Modulator {
    // Pulse shaping filter.
    pub filter: FirComplexSym,
}

impl Modulator {
    pub fn new() -> Modulator
        ensures { line_of result.filter ≡ replicate 32 silence }
    {
        Modulator {
            filter: FirComplexSym::new(),
        }
    }

    // Produces one output sample, or refuses and changes nothing.
    #[tactic(auto, unfolding(crate::specs::Sender::sender_reply, crate::specs::Sender::shaped_of, crate::specs::Sender::told_of, crate::specs::Sender::next_line, crate::specs::Sender::sender_of, crate::specs::Sender::filter_input, crate::specs::Sender::tells, crate::specs::Sender::sender_after, mapper::specs::Dqpsk::phase_after))]
    pub fn sample(
        &mut self,
        mapper: &mut DqpskMapper,
        sample_counter: SampleCount,
        slot: TdmaTime,
        bits: Option<&[u8]>,
    ) -> Result<ComplexSample, Refusal>
        ensures reply { sender_reply result ≡ tells (sender_of self.old mapper.old) (due_of sample_counter.0 slot.0 (option_copied bits.entry)) }
        ensures sender { sender_of self.new mapper.new ≡ sender_after (sender_of self.old mapper.old) (due_of sample_counter.0 slot.0 (option_copied bits.entry)) }
        ensures kept { OnErr result ((self.new ≡ self.old) × (mapper.new ≡ mapper.old)) }
    {
        let due = due_now(sample_counter, slot, bits)?;
        Ok(self.filter.sample(mapper.symbol(Ok(due))))
    }
}
