// Reads a list of calls, makes each call of the library in order and prints the answers.
//
// One call a line. A line that is no call prints `error` and changes nothing; so does a line of more than 65,536
// bytes. A NaN is printed as 7fc00000, whatever its bits. The run ends where the input ends or cannot be read, or
// the answers cannot be written.
#![tactic(auto)]

mod answer;
mod field;
mod input;
mod output;
mod receivers;
mod session;
mod stateless;
mod uplink;

use answer::error;
use input::Line;
use output::Output;
use program::Taker;
use session::Session;
use std::io::Read;
use streams::Host;

// The line that is read, what the calls work on, and their answers.
#[derive(Drop)]
struct Replayer {
    line: Line,
    session: Session,
    out: Output,
}

impl Replayer {
    // Makes the call of the line.
    fn call<H: Host>(&mut self, rt: &H) {
        let answer = self.session.step(self.line.text()).unwrap_or(error());
        self.out.add(rt, answer);
    }
}

// Makes the calls of the lines that end in a block. (tetra_tx parts lines so too: one function for both would have to be given
// how each keeps, clears and reads its line, and be no plainer.)
impl Taker for Replayer {
    fn take<H: Host>(&mut self, rt: &H, block: &[u8]) -> bool {
        for byte in block {
            if *byte == b'\n' {
                self.call(rt);
                self.line.clear();
            } else {
                self.line.push(*byte);
            }
        }
        !self.out.is_broken
    }
}

// Not inlined: a run that tells the help or the version needs none of its blocks on the stack.
#[inline(never)]
fn run<H: Host, R: Read>(rt: &H, from: &mut R) {
    let mut block = [0u8; 65536];
    let mut replayer = Replayer {
        line: Line::new(),
        session: Session::new(),
        out: Output::new(),
    };
    let what = b"replay: the input cannot be read";
    // An end that comes in a line ends the line: a terminal's input may go on behind it. So the run ends where nothing was read of
    // a line. A proved loop has to end: it counts to a number that no run reaches.
    for _ in 0..u64::MAX {
        // What was read of a line before the input failed is no line.
        let is_read = program::read_blocks(rt, from, what, &mut block, &mut replayer);
        if !is_read || replayer.out.is_broken || replayer.line.is_empty() {
            break;
        }
        replayer.call(rt);
        replayer.line.clear();
    }
    replayer.out.flush(rt);
}

fn main(rt: HostRuntime) {
    let from = program::input(
        &rt,
        b"replay",
        b"usage: replay [FILE]

Makes the calls of the TETRA slot modem that the file, or standard input, lists,
one a line, and prints each answer, or refused and the number of the refusal. A
line that is no call prints error and changes nothing.
  new R MODE             receiver R, 0 to 3, anew; mode 0 to 3
  s R COUNTER RE IM      one sample; RE and IM are f32 bit patterns
  t R L0 L1 L2           takes the slot, with lent slices of these lengths
  T R L0 L1 L2           the same, and tells the counter of its window's close
  f R Q                  receiver R follows receiver Q
  txnew                  the sender anew
  w COUNTER SLOT BITS    one sent sample; bits - for a slot without a burst
  j KIND LENGTH BITS     the call logger's judgement of a window's bits
  b LETTER BITS          a burst from its blocks
  u SEQ BYTES BYTES      a normal uplink burst from its blocks
  c BYTES BYTES          a control uplink burst from its blocks
Bits are = and a digit for each; bytes are bits, or # and two hexadecimal digits
for each. docs/REPLAY.md has the whole format.

  --help      this text
  --version   the version
",
    );
    if let Some(mut from) = from {
        run(&rt, &mut from);
    }
}
