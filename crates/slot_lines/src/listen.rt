// Samples, heard up to a slot.
ghost use Rattle.std.specs.Prelude.{◌≡◌, List, ◌/◌, ◌<◌, ◌≤◌, length, Float};
ghost use Rattle.receiver.specs.Feed.{interleaved};
ghost use Rattle.receiver.specs.View.{receiver_of};
ghost use Rattle.slot_lines.specs.Blocks.{take_next, taken_line, printed, stretch_of, step_of, from_step, step_made};

use dsp_types::{Refusal, SampleCount};
use history::History;
use receiver::{State, Stop};
use slot_text::{Style, slot_line};
use text::Text;

// How many samples are done with, of both links where there are two; the refusal of the last that was heard; the line to print.
#[derive(Clone, Copy)]
pub struct Heard {
    pub taken: usize,
    pub refusal: Option<Refusal>,
    pub line: Option<Text>,
}

// Takes the slot that waits.
fn take_line(state: &mut State, style: Style) -> Text
    ensures line { (re im abs : List Float) → result ≡ taken_line style (take_next (receiver_of state.old re im abs)).reply }
    ensures receiver { (re im abs : List Float) → receiver_of state.new re im abs ≡ (take_next (receiver_of state.old re im abs)).receiver }
{
    let mut slot = [0u8; 510];
    let mut subslot1 = [0u8; 254];
    let mut subslot2 = [0u8; 254];
    match state.take_demodulated_slot(&mut slot, &mut subslot1, &mut subslot2) {
        Ok(handed) => slot_line(
            style,
            handed,
            text::front(&slot, handed.full.burst_len),
            text::front(&subslot1, handed.subslot1.burst_len),
            text::front(&subslot2, handed.subslot2.burst_len),
        ),
        Err(_) => Text::new(),
    }
}

// Hears samples up to one that hands a slot over, which is taken, or up to one that is refused.
fn hear_row(
    state: &mut State,
    past: &mut History,
    samples: &[f32],
    first: SampleCount,
    style: Style,
) -> Heard
    ensures { step_made result (receiver_of state.new past.new.re past.new.im past.new.abs) ≡ stretch_of style (receiver_of state.old past.old.re past.old.im past.old.abs) (interleaved samples.now) first.0 }
{
    let fed = state.feed(&mut past.re, &mut past.im, &mut past.abs, samples, first);
    let taken = fed.taken;
    match fed.stop {
        Stop::End => Heard {
            taken,
            refusal: None,
            line: None,
        },
        Stop::Slot => Heard {
            taken,
            refusal: None,
            line: Some(take_line(state, style)),
        },
        Stop::Refused(refusal) => Heard {
            taken,
            refusal: Some(refusal),
            line: None,
        },
    }
}

// Hears samples, re and im in turn, with the counters from first on: up to one that hands a slot over, which is taken
// and printed, or up to one that is refused, for which a zero is heard. What is left of them prints the rest.
pub fn hear(
    state: &mut State,
    past: &mut History,
    samples: &[f32],
    first: SampleCount,
    style: Style,
) -> Heard
    ensures step { step_made result (receiver_of state.new past.new.re past.new.im past.new.abs) ≡ step_of style (receiver_of state.old past.old.re past.old.im past.old.abs) (interleaved samples.now) first.0 }
    ensures whole { printed style (receiver_of state.old past.old.re past.old.im past.old.abs) (interleaved samples.now) first.0 ≡ from_step style (step_made result (receiver_of state.new past.new.re past.new.im past.new.abs)) (interleaved samples.now) first.0 }
    ensures onward { (result.taken ≤ length samples.now / 2) × (0 < length samples.now / 2 → 0 < result.taken) }
{
    let row = hear_row(state, past, samples, first, style);
    if row.refusal.is_none() {
        return row;
    }
    let zero = [0.0f32; 2];
    let counter = first.plus(row.taken as i64);
    let mended = hear_row(state, past, &zero, counter, style);
    Heard {
        taken: row.taken + 1,
        refusal: row.refusal,
        line: mended.line,
    }
}
