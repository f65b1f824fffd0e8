// Whether a call is made again, and the wait before it.
use std::io::ErrorKind;
use std::time::{Clock, Duration};
use std::{io, thread};

// How long it waits for a stream, in milliseconds: a pipe holds some hundred milliseconds of samples.
const WAIT: u64 = 2;

// Whether a read or a write that failed so is made again. Where its stream was not ready, it waits first.
pub(crate) fn is_again<C: Clock>(rt: &C, error: io::Error) -> bool {
    match error.kind() {
        ErrorKind::WouldBlock => {
            thread::sleep(rt, Duration::from_millis(WAIT));
            true
        }
        ErrorKind::Interrupted => true,
        _ => false,
    }
}
