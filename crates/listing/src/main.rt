// Lists the adjustment bits of one burst: reads all of the input, writes the listing.
#![tactic(auto)]

use lister::Input;
use program::Taker;
use std::io::Read;
use streams::Host;

fn list<H: Host>(rt: &H, input: &Input) {
    let text = input.listed();
    streams::write_or_tell(
        rt,
        &mut rt.output(),
        text.as_bytes(),
        b"listing: the listing cannot be written",
    );
}

// What is kept of the input.
#[derive(Clone, Copy)]
struct Kept(Input);

impl Taker for Kept {
    fn take<H: Host>(&mut self, _rt: &H, block: &[u8]) -> bool {
        self.0.feed(block);
        true
    }
}

fn read_all<H: Host, R: Read>(rt: &H, from: &mut R) {
    let mut block = [0u8; 4096];
    let mut kept = Kept(Input::new());
    let what = b"listing: the input cannot be read";
    if program::read_blocks(rt, from, what, &mut block, &mut kept) {
        list(rt, &kept.0);
    }
}

fn main(rt: HostRuntime) {
    let asked = program::input(
        &rt,
        b"listing",
        b"usage: listing [FILE]

Lists the phase sums and adjustment bits of a TETRA downlink burst. The file, or
standard input, is a letter and the bits of the burst's blocks, in burst order:
  S   synchronization burst, 366 bits
  N   normal burst with training sequence 1, 462 bits
  P   normal burst with training sequence 2, 462 bits
Other input is refused: 3 for a wrong length, 4 for a character other than 0 and
1, 5 for another letter.

  --help      this text
  --version   the version
",
    );
    if let Some(mut source) = asked {
        read_all(&rt, &mut source);
    }
}
