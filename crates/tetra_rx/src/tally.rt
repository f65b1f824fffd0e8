// What a run has come to, and what is told of it.
ghost use Rattle.std.specs.Prelude.{◌<◌};

use crate::link::LinkTally;
use crate::options::Options;
use crate::report;
use dsp_types::{COUNTERS, SampleCount};
use receiver::State;
use slot_receiver::Mode;
use slot_text::Link;
use std::io::IsTerminal;
use streams::Host;
use text::Text;

// A second of samples, after which the progress line is written anew, and a minute.
const SECOND: u64 = 72000;

const MINUTE: u64 = 60 * SECOND;

// A counter as the receiver takes it.
pub(crate) fn count_of(counter: u64) -> SampleCount {
    SampleCount((counter % 0x8000_0000_0000_0000) as i64)
}

// How many samples from that counter on the downlink is given in a step: while it searches, none behind the one at which its
// window closes, so that a step ends where it locks. A loss comes with a slot, which ends a step anyway.
pub(crate) fn step_length(down: &State, counter: u64) -> usize
    ensures { 0 < result }
{
    if down.slots.mode() == Mode::DlUnsynchronized {
        down.slots
            .quiet_samples(count_of(counter))
            .saturating_add(1)
    } else {
        usize::MAX
    }
}

#[derive(Clone, Copy)]
pub struct Tally {
    // The counter of the next sample.
    pub counter: u64,
    // Whether the lines can be written and the counter goes on.
    pub is_open: bool,
    is_quiet: bool,
    is_progress: bool,
    // Whether the lines stand on a terminal, where the progress line is taken away before each.
    is_shared: bool,
    // The downlink's mode, since which sample, and whether advice was given since.
    mode: Mode,
    since: u64,
    is_advised: bool,
    // When the progress line is written next.
    next: u64,
    down: LinkTally,
    up: Option<LinkTally>,
}

impl Tally {
    pub(crate) fn new<H: Host>(rt: &H, options: Options) -> Tally {
        let is_terminal = rt.errors().is_terminal();
        let is_progress = (is_terminal || options.is_progress) && !options.is_quiet;
        let is_shared = rt.output().is_terminal() && is_progress;
        Tally {
            counter: 0,
            is_open: true,
            is_quiet: options.is_quiet,
            is_progress,
            is_shared,
            mode: Mode::DlUnsynchronized,
            since: 0,
            is_advised: false,
            next: SECOND,
            down: LinkTally::new(Link::Down),
            up: options.uplink.map(|_| LinkTally::new(Link::Up)),
        }
    }

    // The mode that the downlink is in behind the sample with that counter, the last of a step: where the mode has changed, a
    // window closed at this sample.
    pub(crate) fn set_mode<H: Host>(&mut self, rt: &H, mode: Mode, counter: u64) {
        if mode == self.mode {
            return;
        }
        self.mode = mode;
        self.since = counter;
        self.is_advised = false;
        if !self.is_quiet {
            let begun = report::with_mode(report::begun(Link::Down, self.is_progress), mode);
            report::tell(
                rt,
                report::with_number(begun, b" at sample ", counter),
                b"\n",
            );
        }
    }

    // What a link that there is has come to.
    fn tally_of(&mut self, link: Link) -> Option<&mut LinkTally> {
        match link {
            Link::Up => self.up.as_mut(),
            Link::Alone | Link::Down => Some(&mut self.down),
        }
    }

    // A slot more, whose line is printed.
    pub(crate) fn print<H: Host>(&mut self, rt: &H, link: Link, line: Text) {
        if self.is_shared {
            report::clear(rt);
        }
        if let Err(error) = line.print(rt) {
            program::fail(rt, b"tetra_rx", b"the lines cannot be written", error);
            self.is_open = false;
        }
        if let Some(tally) = self.tally_of(link) {
            tally.count_slot();
        }
    }

    // A refused sample.
    pub(crate) fn refuse<H: Host>(&mut self, rt: &H, link: Link, counter: u64) {
        let is_progress = self.is_progress;
        if let Some(tally) = self.tally_of(link) {
            tally.tell_by(rt, counter, is_progress);
            tally.refuse(counter);
        }
    }

    // After a minute of search without a lock.
    fn advise<H: Host>(&mut self, rt: &H) {
        let searched = self.counter.wrapping_sub(self.since);
        if self.is_quiet || self.is_advised || self.mode == Mode::Dl || searched < MINUTE {
            return;
        }
        report::tell(
            rt,
            report::begun(Link::Down, self.is_progress),
            b"no lock for a minute: is the carrier within 1,600 Hz of 0, are there 72,000 samples a second, are I and Q exchanged?\n",
        );
        self.is_advised = true;
    }

    // Writes the progress line anew after each second of samples, with the level of the newest.
    fn progress<H: Host>(&mut self, rt: &H, parts: &[f32]) {
        if !self.is_progress || self.counter < self.next {
            return;
        }
        let samples = report::with_count(report::begun(Link::Down, true), self.counter, b" sample");
        let slots = self.down.with_slots(samples.append(b", "));
        let level = report::with_level(slots.append(b", "), iq_format::level(parts));
        let mode = report::with_mode(level.append(b", "), self.mode);
        report::tell(rt, report::with_number(mode, b" since ", self.since), b"");
        self.next = self.counter.wrapping_add(SECOND);
    }

    // So many samples more, of which the downlink's are given.
    pub(crate) fn move_on<H: Host>(&mut self, rt: &H, n: usize, parts: &[f32]) {
        self.counter = self.counter.wrapping_add(n as u64);
        self.down.tell_by(rt, self.counter, self.is_progress);
        if let Some(up) = &mut self.up {
            up.tell_by(rt, self.counter, self.is_progress);
        }
        self.advise(rt);
        self.progress(rt, parts);
        self.close_at_end(rt);
    }

    // There are no more counters.
    fn close_at_end<H: Host>(&mut self, rt: &H) {
        if self.counter < COUNTERS {
            return;
        }
        report::tell(
            rt,
            report::begun(Link::Down, self.is_progress),
            b"no more samples, the counter is at its end\n",
        );
        self.is_open = false;
    }

    // How many of n samples have counters.
    pub(crate) fn room(self, n: usize) -> usize {
        COUNTERS.saturating_sub(self.counter).min(n as u64) as usize
    }

    // The bytes of half a sample are told.
    fn tell_rest<H: Host>(self, rt: &H, link: Link, rest: usize) {
        if rest > 0 {
            let line = report::with_count(
                report::begun(link, self.is_progress),
                rest as u64,
                b" byte",
            );
            report::tell(rt, line, b" behind the last whole sample\n");
        }
    }

    // The uplink is at its end before the downlink.
    pub(crate) fn tell_uplink_end<H: Host>(self, rt: &H) {
        let line = report::with_number(
            report::begun(Link::Up, self.is_progress),
            b"ends at sample ",
            self.counter,
        );
        report::tell(rt, line, b", zeros are heard behind it\n");
    }

    // Tells what is left: refused samples, the bytes of half a sample, and the summary.
    pub(crate) fn finish<H: Host>(mut self, rt: &H, rest: usize, up_rest: usize) {
        self.down.tell(rt, self.is_progress);
        if let Some(up) = &mut self.up {
            up.tell(rt, self.is_progress);
        }
        self.tell_rest(rt, Link::Down, rest);
        self.tell_rest(rt, Link::Up, up_rest);
        if !self.is_quiet {
            self.summary(rt);
        }
    }

    fn summary<H: Host>(self, rt: &H) {
        let begun = report::begun(Link::Down, self.is_progress);
        let samples = report::with_count(begun, self.counter, b" sample");
        let slots = self.down.summary(samples.append(b", "));
        report::tell(rt, report::with_mode(slots.append(b", "), self.mode), b"\n");
        if let Some(up) = self.up {
            report::tell(rt, up.summary(report::begun(Link::Up, false)), b"\n");
        }
    }
}
