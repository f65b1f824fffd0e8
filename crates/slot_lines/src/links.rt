// A downlink and the uplink beside it, which follows it.
ghost use Rattle.std.specs.Prelude.{◌≡◌, List, ◌++◌, Float, pos, ◌+ℤ◌, length, take, drop, is_some, not, ◌||◌};
ghost use Rattle.receiver.specs.Feed.{interleaved};
ghost use Rattle.receiver.specs.View.{receiver_of};
ghost use Rattle.slot_lines.specs.Blocks.{line_of};
ghost use Rattle.slot_lines.specs.Links.{is_uplink, is_past, follow_if, begins_if, shown_of, is_shown, rest_printed, lead_step, catch_up_step, both_step, both_of, both_made};

use crate::listen::{Heard, hear};
use dsp_types::SampleCount;
use history::History;
use receiver::State;
use slot_receiver::Mode;
use slot_text::{Link, Style};
use text::Text;

#[derive(Clone, Copy)]
pub struct Links {
    pub down: State,
    pub up: State,
    // Whether the uplink's next slot is the first since it began to follow, by its old timing: it is not printed.
    pub begins: bool,
    // So many samples the downlink has heard and the uplink has not.
    pub behind: usize,
    // Whether the last of them handed a slot over, and the line that is printed then.
    pub slot: bool,
    pub line: Option<Text>,
}

// The first n samples, or all where there are fewer.
#[tactic(auto, using(crate::proofs::Both::first_few))]
pub fn first_samples(samples: &[f32], n: usize) -> &[f32]
    ensures { interleaved result.now ≡ take n (interleaved samples.now) }
{
    let count = n.min(samples.len() / 2);
    &samples[..2 * count]
}

// Whether an uplink receiver that begins to follow keeps its old timing: unless that is past for the next sample, which has this
// counter.
#[tactic(auto, unfolding(crate::specs::Links::is_past, crate::specs::Links::is_uplink, receiver::specs::View::receiver_of, slot_receiver::specs::View::receiver_from))]
fn keeps_timing(up: &State, counter: SampleCount) -> bool
    ensures { (re im abs : List Float) → result ≡ not (is_uplink (receiver_of up.now re im abs).mode || is_past (receiver_of up.now re im abs) counter.0) }
{
    let is_past = up.slots.slot_ready_time.plus(16) < counter;
    !(up.slots.mode() == Mode::Ul || is_past)
}

// What is shown of a line.
#[tactic(auto, unfolding(crate::specs::Links::shown_of, crate::specs::Links::is_shown))]
fn shown(begins: bool, line: Option<Text>) -> Option<Text>
    ensures line { line_of result ≡ shown_of begins (line_of line) }
    ensures is_shown { is_some result ≡ is_shown begins (is_some line) }
{
    if begins { None } else { line }
}

impl Links {
    // The uplink follows where the downlink handed a slot over. Its next slot is then its first by its old timing, unless that
    // is past for the next sample, which has this counter.
    #[tactic(auto, unfolding(crate::specs::Links::follow_if, crate::specs::Links::begins_if))]
    fn follow_if(&mut self, counter: SampleCount)
        ensures up { (re im abs re₂ im₂ abs₂ : List Float) → receiver_of self.new.up re im abs ≡ follow_if self.old.slot (receiver_of self.old.up re im abs) (receiver_of self.old.down re₂ im₂ abs₂) }
        ensures begins { (re im abs : List Float) → self.new.begins ≡ begins_if self.old.slot (receiver_of self.old.up re im abs) counter.0 self.old.begins }
        ensures others { (self.new.down ≡ self.old.down) × (self.new.behind ≡ self.old.behind) × (self.new.slot ≡ self.old.slot) × (self.new.line ≡ self.old.line) }
    {
        if self.slot {
            self.begins |= keeps_timing(&self.up, counter);
            let _ = self.up.sync_to_demodulator(&self.down);
        }
    }

    // The downlink leads: up to a slot, or to a refused sample.
    #[tactic(auto, using(crate::proofs::Both::led_made), unfolding(crate::specs::Blocks::step_made, crate::specs::Links::down_style, crate::specs::Links::both_of, crate::specs::Links::both_made))]
    fn lead(
        &mut self,
        past: &mut History,
        samples: &[f32],
        first: SampleCount,
        style: Style,
    ) -> Heard
        ensures { (up_re up_im up_abs : List Float) → both_made result self.new past.new.re past.new.im past.new.abs up_re up_im up_abs ≡ lead_step style.form style.has_bits (both_of self.old past.old.re past.old.im past.old.abs up_re up_im up_abs) (interleaved samples.now) first.0 }
    {
        let line = self.line;
        self.follow_if(first);
        let style = Style {
            link: Link::Down,
            ..style
        };
        let heard = hear(&mut self.down, past, samples, first, style);
        self.behind = heard.taken;
        self.slot = heard.line.is_some();
        self.line = heard.line;
        Heard {
            taken: 0,
            refusal: heard.refusal,
            line,
        }
    }

    // The uplink comes after it, up to a slot of its own, or to a refused sample.
    fn catch_up(
        &mut self,
        past: &mut History,
        samples: &[f32],
        first: SampleCount,
        style: Style,
    ) -> Heard
        ensures { (down_re down_im down_abs : List Float) → both_made result self.new down_re down_im down_abs past.new.re past.new.im past.new.abs ≡ catch_up_step style.form style.has_bits (both_of self.old down_re down_im down_abs past.old.re past.old.im past.old.abs) (interleaved samples.now) first.0 }
    {
        let style = Style {
            link: Link::Up,
            ..style
        };
        let behind = first_samples(samples, self.behind);
        let heard = hear(&mut self.up, past, behind, first, style);
        let line = shown(self.begins, heard.line);
        self.begins &= heard.line.is_none();
        self.behind -= heard.taken;
        Heard {
            taken: heard.taken,
            refusal: heard.refusal,
            line,
        }
    }
}

// Hears samples of both links, re and im in turn, with the counters from first on, for which it is called again until all are
// done with: the downlink leads up to a slot, then the uplink comes after it, and then it follows.
pub fn hear_links(
    links: &mut Links,
    past: &mut History,
    up_past: &mut History,
    samples: &[f32],
    up_samples: &[f32],
    first: SampleCount,
    style: Style,
) -> Heard
    ensures step { both_made result links.new past.new.re past.new.im past.new.abs up_past.new.re up_past.new.im up_past.new.abs ≡ both_step style.form style.has_bits (both_of links.old past.old.re past.old.im past.old.abs up_past.old.re up_past.old.im up_past.old.abs) (interleaved samples.now) (interleaved up_samples.now) first.0 }
    ensures whole { length (interleaved samples.now) ≡ length (interleaved up_samples.now) → rest_printed style.form style.has_bits (both_of links.old past.old.re past.old.im past.old.abs up_past.old.re up_past.old.im up_past.old.abs) (interleaved samples.now) (interleaved up_samples.now) first.0 ≡ line_of result.line ++ rest_printed style.form style.has_bits (both_of links.new past.new.re past.new.im past.new.abs up_past.new.re up_past.new.im up_past.new.abs) (drop result.taken (interleaved samples.now)) (drop result.taken (interleaved up_samples.now)) (first.0 +ℤ pos result.taken) }
{
    if links.behind == 0 {
        links.lead(past, samples, first, style)
    } else {
        links.catch_up(up_past, up_samples, first, style)
    }
}
