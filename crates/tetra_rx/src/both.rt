// A downlink and the uplink beside it.
use crate::input::{Input, samples_from};
use crate::options::Options;
use crate::tally::{Tally, count_of, step_length};
use history::History;
use receiver::State;
use slot_lines::{Heard, Links, Style, first_samples};
use slot_receiver::Mode;
use slot_text::Link;
use std::io::Read;
use streams::Host;

// The pasts of both receivers are lent to the calls that hear, so that none of them copies them.
#[derive(Clone, Copy)]
struct Both {
    links: Links,
    tally: Tally,
}

impl Both {
    fn new(tally: Tally) -> Both {
        let links = Links {
            down: State::new(Mode::DlUnsynchronized),
            up: State::new(Mode::Idle),
            begins: false,
            behind: 0,
            slot: false,
            line: None,
        };
        Both { links, tally }
    }

    // Tells what a step from that counter on came to, of the uplink or of the downlink: a slot's line, a refused sample, and the
    // downlink's mode.
    fn tell<H: Host>(&mut self, rt: &H, link: Link, heard: Heard, first: u64) {
        let ahead = match link {
            Link::Up => heard.taken,
            Link::Alone | Link::Down => self.links.behind,
        };
        let last = first.wrapping_add(ahead as u64).wrapping_sub(1);
        if let Some(line) = heard.line {
            self.tally.print(rt, link, line);
        }
        if heard.refusal.is_some() {
            self.tally.refuse(rt, link, last);
        }
        if let Link::Down = link {
            self.tally.set_mode(rt, self.links.down.slots.mode(), last);
        }
    }

    // Hears a block of samples of each link, re and im in turn.
    fn hear<H: Host>(
        &mut self,
        rt: &H,
        past: &mut History,
        up_past: &mut History,
        parts: &[f32],
        up_parts: &[f32],
        style: Style,
    ) {
        let count = parts.len().min(up_parts.len()) / 2;
        let start = self.tally.counter;
        let mut at: usize = 0;
        // A proved loop has to end, and a step that leads takes no sample of both: it counts to a number that no run reaches.
        for _ in 0..u64::MAX {
            // A line of the downlink waits for the uplink.
            let is_held = self.links.line.is_some();
            if !self.tally.is_open || count <= at && !is_held {
                break;
            }
            let first = start.wrapping_add(at as u64);
            let (link, n) = match self.links.behind {
                0 => (Link::Down, step_length(&self.links.down, first)),
                behind => (Link::Up, behind),
            };
            let heard = slot_lines::hear_links(
                &mut self.links,
                past,
                up_past,
                samples_from(parts, at, n),
                samples_from(up_parts, at, n),
                count_of(first),
                style,
            );
            at = at.wrapping_add(heard.taken);
            self.tell(rt, link, heard, first);
        }
        self.tally.move_on(rt, at, parts);
    }
}

// How many samples are heard next: as many as both have, and all of the downlink's behind the uplink's end.
fn common<R: Read>(down: &Input<R>, up: &Input<R>) -> usize {
    if up.is_over {
        down.samples()
    } else {
        down.samples().min(up.samples())
    }
}

// As alone::receive, with the uplink's file beside the downlink's.
#[inline(never)]
pub(crate) fn receive<H: Host, R: Read + Drop>(rt: &H, from: R, up_from: R, options: Options) {
    let mut block = [0u8; 65536];
    let mut up_block = [0u8; 65536];
    let mut parts = [0.0f32; 16384];
    let mut up_parts = [0.0f32; 16384];
    let mut past = History::new();
    let mut up_past = History::new();
    // Whose link is each line's own.
    let style = options.style(Link::Down);
    let mut down = Input::new(from, options.format);
    let mut up = Input::new(up_from, options.format);
    let mut both = Both::new(Tally::new(rt, options));
    // As in alone::receive: nothing says that the inputs end.
    for _ in 0..u64::MAX {
        if !both.tally.is_open || down.is_over {
            break;
        }
        down.fill(rt, &mut block, b"tetra_rx: the input cannot be read");
        let was_over = up.is_over || down.is_over;
        up.fill(rt, &mut up_block, b"tetra_rx: the uplink cannot be read");
        if up.is_over && !was_over {
            both.tally.tell_uplink_end(rt);
        }
        let n = both.tally.room(common(&down, &up));
        down.decode(&block, n, &mut parts);
        up.decode(&up_block, n, &mut up_parts);
        both.hear(
            rt,
            &mut past,
            &mut up_past,
            first_samples(&parts, n),
            first_samples(&up_parts, n),
            style,
        );
        down.without(&mut block, n);
        up.without(&mut up_block, n);
    }
    both.tally.finish(rt, down.rest(), up.rest());
}
