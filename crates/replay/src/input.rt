// A line of the input, which comes in blocks.
use arrayvec::ArrayVec;

#[derive(Drop)]
pub enum Line {
    Kept(ArrayVec<u8, 65536>),
    // Neither it nor what comes behind is kept.
    TooLong,
}

impl Line {
    pub(crate) fn new() -> Line {
        Line::Kept(ArrayVec::new())
    }

    pub(crate) fn push(&mut self, byte: u8) {
        if let Line::Kept(bytes) = self
            && bytes.try_push(byte).is_err()
        {
            *self = Line::TooLong;
        }
    }

    pub(crate) fn is_empty(&self) -> bool {
        match self {
            Line::Kept(bytes) => bytes.is_empty(),
            Line::TooLong => false,
        }
    }

    pub(crate) fn clear(&mut self) {
        match self {
            Line::Kept(bytes) => bytes.clear(),
            Line::TooLong => *self = Line::new(),
        }
    }

    // A line that is too long is read as an empty one: neither is a call.
    pub(crate) fn text(&self) -> &[u8] {
        match self {
            Line::Kept(bytes) => bytes.as_slice(),
            Line::TooLong => b"",
        }
    }
}
