// A file of samples, read block by block.
ghost use Rattle.std.specs.Prelude.{◌≡◌, ◌-◌, ◌/◌, ◌<◌, ◌≤◌, min, length};

use iq_format::Format;
use std::io::Read;
use streams::Host;

pub type Block = [u8; 65536];

pub type Parts = [f32; 16384];

// No more samples are held: their parts fill the row of parts.
const MOST: usize = 8192;

// The block is the caller's own: in an `ArrayVec` of the input's own a read would go by way of another block, and the stack hold both.
#[derive(Drop)]
pub struct Input<R> {
    from: R,
    format: Format,
    // So many bytes stand at the block's begin: what was read of samples that are not done with.
    held: usize,
    pub is_over: bool,
}

// n samples behind the first `from`, or all of them where there are fewer.
pub(crate) fn samples_from(parts: &[f32], from: usize, n: usize) -> &[f32]
    ensures { length result.now / 2 ≡ min n (length parts.now / 2 - from) }
{
    let start = from.min(parts.len() / 2);
    slot_lines::first_samples(&parts[2 * start..], n)
}

// Sets the parts between these places to zero.
fn silence(parts: &mut [f32], from: usize, to: usize) {
    let end = to.min(parts.len());
    if from < end {
        parts[from..end].fill(0.0);
    }
}

// Moves the bytes between these places to the front.
fn move_to_front(block: &mut Block, from: usize, to: usize) {
    if from < to && to <= block.len() {
        block.copy_within(from..to, 0);
    }
}

impl<R: Read> Input<R> {
    pub(crate) fn new(from: R, format: Format) -> Input<R> {
        Input {
            from,
            format,
            held: 0,
            is_over: false,
        }
    }

    fn sample_bytes(&self) -> usize
        ensures { (0 < result) × (result ≤ 8) }
    {
        2 * iq_format::part_bytes(self.format)
    }

    // How many whole samples are held.
    pub(crate) fn samples(&self) -> usize {
        self.held / self.sample_bytes()
    }

    // How many bytes of half a sample are held.
    pub(crate) fn rest(&self) -> usize
        ensures { result ≤ 8 }
    {
        self.held % self.sample_bytes()
    }

    // Reads on where no whole sample is held.
    pub(crate) fn fill<H: Host>(&mut self, rt: &H, block: &mut Block, what: &[u8]) {
        let bytes = self.sample_bytes();
        if self.is_over || bytes <= self.held {
            return;
        }
        let room = &mut block[self.held..bytes * MOST];
        let got = streams::read_or_tell(rt, &mut self.from, room, what).unwrap_or(0);
        self.held = self.held.wrapping_add(got);
        self.is_over = got == 0;
    }

    // The first n samples are decoded, zeros behind those that are held.
    pub(crate) fn decode(&self, block: &Block, n: usize, parts: &mut Parts) {
        let count = iq_format::decode(self.format, text::front(block, self.held), parts);
        silence(parts, count - count % 2, n.wrapping_add(n));
    }

    // The first n samples are done with; where there were fewer, bytes of half a sample are left.
    pub(crate) fn without(&mut self, block: &mut Block, n: usize) {
        let done = n.min(MOST) * self.sample_bytes();
        if done < self.held {
            move_to_front(block, done, self.held);
            self.held -= done;
        } else {
            self.held = self.rest();
        }
    }
}
