// A downlink, received alone.
use crate::input::{Input, samples_from};
use crate::options::Options;
use crate::tally::{Tally, count_of, step_length};
use history::History;
use receiver::State;
use slot_lines::{Heard, Style, first_samples};
use slot_receiver::Mode;
use slot_text::Link;
use std::io::Read;
use streams::Host;

// The receiver's past is lent to the calls that hear, so that none of them copies it.
#[derive(Clone, Copy)]
struct Downlink {
    receiver: State,
    tally: Tally,
}

impl Downlink {
    // Tells what a step from that counter on came to: the receiver's mode, a refused sample, a slot's line.
    fn tell<H: Host>(&mut self, rt: &H, heard: Heard, first: u64) {
        let last = first.wrapping_add(heard.taken as u64).wrapping_sub(1);
        self.tally.set_mode(rt, self.receiver.slots.mode(), last);
        if heard.refusal.is_some() {
            self.tally.refuse(rt, Link::Alone, last);
        }
        if let Some(line) = heard.line {
            self.tally.print(rt, Link::Alone, line);
        }
    }

    // Hears a block of samples, re and im in turn.
    fn hear<H: Host>(&mut self, rt: &H, past: &mut History, parts: &[f32], style: Style) {
        let count = parts.len() / 2;
        let start = self.tally.counter;
        let mut at: usize = 0;
        while self.tally.is_open && at < count {
            let first = start.wrapping_add(at as u64);
            let n = step_length(&self.receiver, first);
            let samples = samples_from(parts, at, n);
            let receiver = &mut self.receiver;
            let heard = slot_lines::hear(receiver, past, samples, count_of(first), style);
            at += heard.taken;
            self.tell(rt, heard, first);
        }
        self.tally.move_on(rt, at, parts);
    }
}

// Hears an input to its end, and tells what came of it. Not inlined: of this and both::receive a run needs the blocks of one on
// the stack, or of none.
#[inline(never)]
pub(crate) fn receive<H: Host, R: Read + Drop>(rt: &H, from: R, options: Options) {
    let mut block = [0u8; 65536];
    let mut parts = [0.0f32; 16384];
    let mut past = History::new();
    let style = options.style(Link::Alone);
    let mut input = Input::new(from, options.format);
    let mut downlink = Downlink {
        receiver: State::new(Mode::DlUnsynchronized),
        tally: Tally::new(rt, options),
    };
    // A proved loop has to end, and nothing says that an input does: it counts to a number that no run reaches.
    for _ in 0..u64::MAX {
        if !downlink.tally.is_open || input.is_over {
            break;
        }
        input.fill(rt, &mut block, b"tetra_rx: the input cannot be read");
        let n = downlink.tally.room(input.samples());
        input.decode(&block, n, &mut parts);
        downlink.hear(rt, &mut past, first_samples(&parts, n), style);
        input.without(&mut block, n);
    }
    downlink.tally.finish(rt, input.rest(), 0);
}
