// The answers, gathered and written to standard output a block at a time.
use arrayvec::ArrayVec;
use streams::Host;
use text::Text;

// A block less room for an answer.
const MOST_GATHERED: usize = 64512;

#[derive(Drop)]
pub struct Output {
    bytes: ArrayVec<u8, 65536>,
    // Whether a write has failed.
    pub is_broken: bool,
}

impl Output {
    pub(crate) fn new() -> Output {
        Output {
            bytes: ArrayVec::new(),
            is_broken: false,
        }
    }

    // Writes out what is gathered. A write that failed is told once, and none follows it.
    pub(crate) fn flush<H: Host>(&mut self, rt: &H) {
        if self.is_broken {
            return;
        }
        let is_written = streams::write_or_tell(
            rt,
            &mut rt.output(),
            self.bytes.as_slice(),
            b"replay: the answers cannot be written",
        );
        self.is_broken = !is_written;
        self.bytes.clear();
    }

    // What is gathered is written out where it may leave no room for an answer, which has less than 1,024 bytes.
    pub(crate) fn add<H: Host>(&mut self, rt: &H, text: Text) {
        let bytes = text.as_bytes();
        if MOST_GATHERED < self.bytes.len() || self.bytes.remaining_capacity() < bytes.len() {
            self.flush(rt);
        }
        let _ = self.bytes.try_extend_from_slice(bytes);
    }
}
