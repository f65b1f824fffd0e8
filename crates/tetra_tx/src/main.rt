// Sends bursts: a line of the input for each slot, raw samples (`.cf32`) to standard output.
#![tactic(auto)]

mod sender;
mod slot;

use arrayvec::ArrayVec;
use program::Taker;
use sender::Sender;
use std::io::Read;
use streams::Host;

// What is kept of the line that is read (`block_text::push`), and what sends its slot.
#[derive(Drop)]
struct Lines {
    line: ArrayVec<u8, 512>,
    sender: Sender,
}

impl Lines {
    fn send<H: Host>(&mut self, rt: &H) {
        let line = text::trimmed(self.line.as_slice(), b'\r');
        self.sender.line(rt, line);
    }
}

// Sends the slots of the lines that end in a block. (replay parts lines so too: one function for both would have to be given
// how each keeps, clears and reads its line, and be no plainer.)
impl Taker for Lines {
    fn take<H: Host>(&mut self, rt: &H, block: &[u8]) -> bool {
        for byte in block {
            if *byte == b'\n' {
                self.send(rt);
                self.line.clear();
            } else {
                block_text::push(&mut self.line, *byte);
            }
        }
        self.sender.is_open
    }
}

fn send_all<H: Host, R: Read>(rt: &H, from: &mut R) {
    let mut block = [0u8; 65536];
    let mut lines = Lines {
        line: ArrayVec::new(),
        sender: Sender::new(),
    };
    let what = b"tetra_tx: the input cannot be read";
    if !program::read_blocks(rt, from, what, &mut block, &mut lines) {
        // What was read of a line before that is not all of it.
        lines.line.clear();
    }
    // No newline ends the last line; a slot without a burst follows it.
    if !lines.line.is_empty() {
        lines.send(rt);
    }
    lines.sender.silence(rt);
}

fn main(rt: HostRuntime) {
    let asked = program::input(
        &rt,
        b"tetra_tx",
        b"usage: tetra_tx [FILE] >samples.cf32

Sends bursts of a TETRA downlink, or of an uplink as a handset does. Each line
of the file, or of standard input, is a slot:
  sync BITS             366 bits, blocks of 120, 30 and 216 in burst order
  normal1 BITS          462 bits, blocks of 216, 30 and 216; training sequence 1
  normal2 BITS          the same with training sequence 2
  uplink1 OFFSET BITS   a normal uplink burst: 432 bits, blocks of 216 and 216;
                        training sequence 1
  uplink2 OFFSET BITS   the same with training sequence 2
  control OFFSET BITS   a control uplink burst: 168 bits, blocks of 84 and 84
  empty                 no burst
OFFSET, an even number from 0 to 48, is how many bits behind the slot's start an
uplink burst stands; zeros are around it. A control burst stands in the first
half of the slot: the second half's window starts 127.5 symbols after the
first's, so that no offset puts a burst exactly there.

An empty line, or one that starts with #, is passed over. A line that is none of
these is reported, and its slot is sent without a burst. A slot without a burst
follows the last one, so that a receiver sees its end.

The output is raw samples, 72,000 a second: f32 re and im in turn, lowest byte
first.

  --help      this text
  --version   the version
",
    );
    if let Some(mut source) = asked {
        send_all(&rt, &mut source);
    }
}
