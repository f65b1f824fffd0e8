// Receives a downlink, and an uplink beside it: raw samples in, a line for each slot to standard output.
#![tactic(auto)]

mod alone;
mod both;
mod input;
mod link;
mod options;
mod report;
mod tally;

use options::Options;
use streams::Host;

const HELP: &[u8] = b"usage: tetra_rx [OPTION].. [FILE]

Receives a TETRA downlink and prints a line for each slot:
  slot=17 sample=18375 type=sync errors=0 bits=..
The slots are numbered from 1 at each lock. The sample, counted from 0, is the
one with which the slot's window closed. A type is sync, normal1, normal2 or
none; errors are the wrong bits of the training sequence, 100 where there is
none; bits are those of the burst, where there is one.

The file, or standard input, has raw samples, 72,000 a second, I and Q in turn,
the carrier at 0 Hz, no part beyond 1024. A sample that is no number is lost: it
is heard as zero, and told. So a sender of samples writes NaN for lost ones.

  --uplink FILE   receive the uplink too, from a file or named pipe with the same
                  format and counters; lines say link=down or link=up, and those
                  of the uplink tell the bursts of half slots as half1_, half2_
  --format F      cf32 (32-bit floats, the default), cs16 or cu8
  --json          each line an object of JSON
  --no-bits       lines without bits
  --progress      a line on standard error that is written anew each second of
                  samples; so on a terminal
  --quiet         no progress, no word of lock and loss, and no summary
  --help          this text
  --version       the version
";

fn receive<H: Host>(rt: &H, options: Options) {
    let Some(source) = program::open(rt, b"tetra_rx", options.downlink) else {
        return;
    };
    let Some(uplink) = options.uplink else {
        alone::receive(rt, source, options);
        return;
    };
    if let Some(up_source) = program::open(rt, b"tetra_rx", uplink) {
        both::receive(rt, source, up_source, options);
    }
}

fn main(rt: HostRuntime) {
    match options::read(&rt) {
        Ok(options) => receive(&rt, options),
        Err(told) => program::tell(&rt, b"tetra_rx", HELP, told),
    }
}
