// The receiver. C passes its state by value and gets the next one back, and lends its past. The header's calls on a receiver in the
// caller's memory are these.
ghost use Rattle.std.specs.Prelude.{◌≡◌, List, [], ◌∷◌, replicate, Float};
ghost use Rattle.dsp_types.specs.Samples.{zero_f};
ghost use Rattle.slot_receiver.specs.Receiver.{new};
ghost use Rattle.slot_receiver.specs.Calls.{sample_outcome, take_outcome, follow_outcome, in_numbers};
ghost use Rattle.receiver.specs.Feed.{interleaved, stopped, feed_of};
ghost use Rattle.slot_receiver.specs.View.{mode_of, mode_number, mode_following};
ghost use Rattle.receiver.specs.View.{receiver_of, Untouched};
ghost use Rattle.modem.specs.Receive.{reply_number, slot_taken, empty_slot, hands_slot, stop_refusal};

use dsp_types::{ComplexSample, SampleCount, TdmaTime, answer_number};
use receiver::{State, Stop};
use rx_slot::{RxBurst, RxSlot};
use slot_receiver::Mode;

// 0 or the refusal's number, and the next state.
#[repr(C)]
#[derive(Clone, Copy)]
pub struct TetraAnswered {
    pub refusal: u32,
    pub state: State,
}

// How many samples were taken, whether the last of them handed a slot over, and the refusal of the next, or 0.
#[repr(C)]
#[derive(Clone, Copy)]
pub struct TetraFed {
    pub taken: usize,
    pub slot: bool,
    pub refusal: u32,
    pub state: State,
}

// 0 with the slot, or the refusal's number and zeros.
#[repr(C)]
#[derive(Clone, Copy)]
pub struct TetraTaken {
    pub refusal: u32,
    pub slot: RxSlot,
    pub state: State,
}

// A refusal's slot is all zeros. (As a `Default` it would read as a slot without bursts, whose views have 100 errors.)
fn empty_slot() -> RxSlot
    ensures { result ≡ empty_slot }
{
    let none = RxBurst {
        train_type: 0,
        train_errs: 0,
        burst_pos: 0,
        burst_len: 0,
    };
    RxSlot {
        time: TdmaTime(0),
        closing_counter: SampleCount(0),
        full: none,
        subslot1: none,
        subslot2: none,
    }
}

// Whether the last sample handed a slot over, and the refusal of the next, or 0.
#[tactic(auto, unfolding(receiver::specs::Feed::stopped))]
fn told(stop: Stop) -> (bool, u32)
    ensures slot { result.0 ≡ hands_slot (stopped stop) }
    ensures refusal { result.1 ≡ stop_refusal (stopped stop) }
{
    match stop {
        Stop::End => (false, 0),
        Stop::Slot => (true, 0),
        Stop::Refused(refusal) => (false, refusal.number()),
    }
}

// The state of a new receiver, whose past is all zeros: 0 Idle, 1 DlUnsynchronized, 2 Dl, 3 Ul; any other number counts as
// Idle.
#[unsafe(no_mangle)]
pub extern "C" fn tetra_state_new(mode: u32) -> State
    ensures receiver { receiver_of result (replicate 2048 zero_f) (replicate 2048 zero_f) (replicate 2048 zero_f) ≡ new (mode_of mode) }
    ensures mode { result.slots.mode ≡ mode_number (mode_of mode) }
{
    State::new(Mode::from(mode))
}

// Takes one sample, or refuses it and leaves state and past as they are.
#[unsafe(no_mangle)]
pub extern "C" fn tetra_state_sample(
    mut state: State,
    past_re: &mut [f32; 2048],
    past_im: &mut [f32; 2048],
    past_abs: &mut [f32; 2048],
    re: f32,
    im: f32,
    counter: i64,
) -> TetraAnswered
    ensures refusal { result.refusal ≡ reply_number (sample_outcome (receiver_of state past_re.old past_im.old past_abs.old) (record { re = re; im = im }) counter).reply }
    ensures receiver { receiver_of result.state past_re.new past_im.new past_abs.new ≡ (sample_outcome (receiver_of state past_re.old past_im.old past_abs.old) (record { re = re; im = im }) counter).receiver }
    ensures refused { (result.refusal ≡ 0 → ⊥) → Untouched state result.state past_re.old past_re.new past_im.old past_im.new past_abs.old past_abs.new }
{
    let input = ComplexSample { re, im };
    let sampled = state.sample(past_re, past_im, past_abs, input, SampleCount(counter));
    TetraAnswered {
        refusal: answer_number(&sampled),
        state,
    }
}

// Takes samples, re and im in turn, with the counters from first on: up to one that hands a slot over, or to one that is
// refused, which is not taken. Where none is taken, state and past stay as they are.
#[unsafe(no_mangle)]
pub extern "C" fn tetra_state_feed(
    mut state: State,
    past_re: &mut [f32; 2048],
    past_im: &mut [f32; 2048],
    past_abs: &mut [f32; 2048],
    samples: &[f32],
    first: i64,
) -> TetraFed
    ensures taken { result.taken ≡ (feed_of (receiver_of state past_re.old past_im.old past_abs.old) (interleaved samples.now) first).taken }
    ensures slot { result.slot ≡ hands_slot (feed_of (receiver_of state past_re.old past_im.old past_abs.old) (interleaved samples.now) first).stop }
    ensures refusal { result.refusal ≡ stop_refusal (feed_of (receiver_of state past_re.old past_im.old past_abs.old) (interleaved samples.now) first).stop }
    ensures receiver { receiver_of result.state past_re.new past_im.new past_abs.new ≡ (feed_of (receiver_of state past_re.old past_im.old past_abs.old) (interleaved samples.now) first).receiver }
    ensures refused { result.taken ≡ 0 → Untouched state result.state past_re.old past_re.new past_im.old past_im.new past_abs.old past_abs.new }
{
    let fed = state.feed(past_re, past_im, past_abs, samples, SampleCount(first));
    let (slot, refusal) = told(fed.stop);
    TetraFed {
        taken: fed.taken,
        slot,
        refusal,
        state,
    }
}

// Takes the slot that waits: its views fill 510, 254 and 254 lent bytes. Or refuses, and everything stays as it is. The past
// has no part in it.
#[tactic(auto, using(crate::proofs::Receiving::taken, crate::proofs::Receiving::slot_or_empty))]
#[unsafe(no_mangle)]
pub extern "C" fn tetra_state_take(
    mut state: State,
    slot: &mut [u8],
    subslot1: &mut [u8],
    subslot2: &mut [u8],
) -> TetraTaken
    ensures refusal { (re im abs : List Float) → result.refusal ≡ reply_number (in_numbers (take_outcome (receiver_of state re im abs) slot.old subslot1.old subslot2.old).reply) }
    ensures slot { (re im abs : List Float) → result.slot ≡ slot_taken (in_numbers (take_outcome (receiver_of state re im abs) slot.old subslot1.old subslot2.old).reply) }
    ensures receiver { (re im abs : List Float) → receiver_of result.state re im abs ≡ (take_outcome (receiver_of state re im abs) slot.old subslot1.old subslot2.old).receiver }
    ensures lent { (re im abs : List Float) → slot.new ∷ subslot1.new ∷ subslot2.new ∷ [] ≡ (take_outcome (receiver_of state re im abs) slot.old subslot1.old subslot2.old).lent }
    ensures refused { (result.refusal ≡ 0 → ⊥) → result.state ≡ state }
{
    let taken = state.take_demodulated_slot(slot, subslot1, subslot2);
    TetraTaken {
        refusal: answer_number(&taken),
        slot: taken.unwrap_or(empty_slot()),
        state,
    }
}

// Takes the slot timing of another receiver. A receiver that finds its own is refused. The past has no part in it.
#[tactic(auto, using(crate::proofs::Receiving::answered))]
#[unsafe(no_mangle)]
pub extern "C" fn tetra_state_follow(mut state: State, other: State) -> TetraAnswered
    ensures refusal { (re im abs re₂ im₂ abs₂ : List Float) → result.refusal ≡ reply_number (follow_outcome (receiver_of state re im abs) (receiver_of other re₂ im₂ abs₂)).reply }
    ensures receiver { (re im abs re₂ im₂ abs₂ : List Float) → receiver_of result.state re im abs ≡ (follow_outcome (receiver_of state re im abs) (receiver_of other re₂ im₂ abs₂)).receiver }
    ensures mode { result.refusal ≡ 0 → result.state.slots.mode ≡ mode_following (mode_of other.slots.mode) state.slots.mode }
    ensures refused { (result.refusal ≡ 0 → ⊥) → result.state ≡ state }
{
    let followed = state.sync_to_demodulator(&other);
    TetraAnswered {
        refusal: answer_number(&followed),
        state,
    }
}
