// The sender: its state and its phase record go in by value, and the next ones come back.
ghost use Rattle.std.specs.Prelude.{◌≡◌, ◌/◌, length};
ghost use Rattle.std.specs.Option.{option_copied};
ghost use Rattle.dsp_types.specs.Answers.{end_number};
ghost use Rattle.mapper.specs.Due.{due_of};
ghost use Rattle.modulator.specs.Sender.{sender_reply, new_sender, tells, sender_after};
ghost use Rattle.modulator.specs.Blocks.{due_after, block_call, Wrote};
ghost use Rattle.modem.specs.Send.{bits_given, sender_in, sample_told};

use dsp_types::{ComplexSample, Refusal, SampleCount, TdmaTime, answer_number};
use modulator::{DqpskMapper, Modulator};

// The sender and its phase record, which the source has apart.
#[repr(C)]
#[derive(Clone, Copy)]
pub struct TetraSender {
    pub modulator: Modulator,
    pub mapper: DqpskMapper,
}

// How many samples were written, and the refusal of the next, or 0.
#[repr(C)]
#[derive(Clone, Copy)]
pub struct TetraSent {
    pub count: usize,
    pub refusal: u32,
    pub sender: TetraSender,
}

// 0 with the sample's parts, or the refusal's number and zeros.
#[repr(C)]
#[derive(Clone, Copy)]
pub struct TetraSentSample {
    pub refusal: u32,
    pub re: f32,
    pub im: f32,
    pub sender: TetraSender,
}

// The bits of a slot, where has_bits is not 0.
fn given(has_bits: u32, bits: &[u8]) -> Option<&[u8]>
    ensures { option_copied result ≡ bits_given has_bits bits.now }
{
    if has_bits != 0 { Some(bits) } else { None }
}

// A refusal's sample is silence.
#[tactic(auto, unfolding(modulator::specs::Sender::sender_reply, crate::specs::Send::first_or_silence, crate::specs::Send::sample_told))]
fn sample_of(answer: Result<ComplexSample, Refusal>) -> ComplexSample
    ensures { result ≡ sample_told (sender_reply answer) }
{
    answer.unwrap_or(ComplexSample { re: 0.0, im: 0.0 })
}

// 0 where a block was refused nothing.
fn refusal_number(refusal: Option<Refusal>) -> u32
    ensures { result ≡ end_number refusal }
{
    refusal.map_or(0, Refusal::number)
}

// A new sender, at phase 0.
#[tactic(auto, unfolding(modulator::specs::Sender::sender_of, modulator::specs::Sender::new_sender, crate::specs::Send::sender_in))]
#[unsafe(no_mangle)]
pub extern "C" fn tetra_sender_new() -> TetraSender
    ensures { sender_in result ≡ new_sender }
{
    TetraSender {
        modulator: Modulator::new(),
        mapper: DqpskMapper::new(),
    }
}

// Sends one sample, or refuses and stays as it is. The bits count where has_bits is not 0.
#[tactic(auto, unfolding(crate::specs::Send::sender_in, modulator::specs::Sender::sender_reply))]
#[unsafe(no_mangle)]
pub extern "C" fn tetra_send_sample(
    sender: TetraSender,
    counter: i64,
    slot: u32,
    has_bits: u32,
    bits: &[u8],
) -> TetraSentSample
    ensures refusal { result.refusal ≡ (tells (sender_in sender) (due_of counter slot (bits_given has_bits bits.now))).number }
    ensures sample { record { re = result.re; im = result.im } ≡ sample_told (tells (sender_in sender) (due_of counter slot (bits_given has_bits bits.now))) }
    ensures sender { sender_in result.sender ≡ sender_after (sender_in sender) (due_of counter slot (bits_given has_bits bits.now)) }
    ensures kept { (result.refusal ≡ 0 → ⊥) → result.sender ≡ sender }
{
    let mut next = sender;
    let answer = next.modulator.sample(
        &mut next.mapper,
        SampleCount(counter),
        TdmaTime(slot),
        given(has_bits, bits),
    );
    let told = sample_of(answer);
    TetraSentSample {
        refusal: answer_number(&answer),
        re: told.re,
        im: told.im,
        sender: next,
    }
}

// Sends as many samples as the buffer has room for, re and im in turn, or up to the first that is refused. The first
// is refused whatever the room is.
#[tactic(auto, unfolding(crate::specs::Send::sender_in))]
#[unsafe(no_mangle)]
pub extern "C" fn tetra_send(
    sender: TetraSender,
    first: i64,
    slot: u32,
    has_bits: u32,
    bits: &[u8],
    out: &mut [f32],
) -> TetraSent
    ensures block { Wrote (block_call (due_after first slot (bits_given has_bits bits.now)) (length out.old / 2) (sender_in sender))
        result.count result.refusal (sender_in result.sender) out.old out.new }
    ensures kept { result.count ≡ 0 → result.sender ≡ sender }
{
    let mut next = sender;
    let sent = next.modulator.block(
        &mut next.mapper,
        SampleCount(first),
        TdmaTime(slot),
        given(has_bits, bits),
        out,
    );
    TetraSent {
        count: sent.count,
        refusal: refusal_number(sent.refusal),
        sender: next,
    }
}
