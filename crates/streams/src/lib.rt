// Reading and writing that waits: a stream that is not ready (EAGAIN, where it is non-blocking) is asked again a little
// later, and a call that a signal ended before it moved a byte (EINTR) is made again. Any other failure can be told, with
// the system's text.
#![tactic(auto)]

mod host;
mod wait;

ghost use Rattle.std.specs.Prelude.{IsTrue, OnOk, IfSome};
ghost use Rattle.io.specs.Counts.{IsPrefixLen};
ghost use Rattle.std.specs.Io.{ReadsAtMost, WritesAtMost};
ghost use Rattle.std.specs.Io.KnownBytes.{Appends, ReadConsumes, WriteAppends};

pub use host::Host;
use std::io;
use std::io::{ErrorKind, Read, Write};
use std::time::Clock;
use wait::is_again;

// Answers as a read of std does. (One function for this and write_some, with a closure that reads or writes, was tried: what the
// closure leaves behind its references, called from a function that keeps it, did not reach the proof.)
pub fn read<C: Clock, R: Read>(rt: &C, from: &mut R, buf: &mut [u8]) -> io::Result<usize>
    ensures bound { ReadsAtMost result buf.new }
    ensures bytes { ReadConsumes (R.remaining from.old) (R.remaining from.new) result buf.new }
{
    // A proved loop has to end, and nothing says that a wait does: it counts to a number that no run reaches.
    for _ in 0..u64::MAX {
        match from.read(buf) {
            Ok(n) => return Ok(n),
            Err(error) => {
                if !is_again(rt, error) {
                    return Err(error);
                }
            }
        }
    }
    Err(io::Error::from(ErrorKind::TimedOut))
}

// Writes some of the bytes and tells how many.
fn write_some<C: Clock, W: Write>(rt: &C, to: &mut W, bytes: &[u8]) -> io::Result<usize>
    ensures bound { WritesAtMost result bytes.now }
    ensures bytes { WriteAppends (W.contents to.old) (W.contents to.new) result bytes.now }
{
    // As in `read`.
    for _ in 0..u64::MAX {
        match to.write(bytes) {
            Ok(n) => return Ok(n),
            Err(error) => {
                if !is_again(rt, error) {
                    return Err(error);
                }
            }
        }
    }
    Err(io::Error::from(ErrorKind::TimedOut))
}

// Writes all of the bytes, or fails where a write fails or takes nothing: some may have been written then.
pub fn write_all<C: Clock, W: Write>(rt: &C, to: &mut W, bytes: &[u8]) -> io::Result<()>
    ensures { OnOk result (Appends (W.contents to.old) (W.contents to.new) bytes.now) }
{
    let mut rest = bytes;
    while !rest.is_empty() {
        let put = write_some(rt, to, rest)?;
        if put == 0 {
            return Err(io::Error::from(ErrorKind::WriteZero));
        }
        rest = &rest[put..];
    }
    Ok(())
}

// Writes to standard output.
pub fn print<H: Host>(rt: &H, bytes: &[u8]) -> io::Result<()> {
    write_all(rt, &mut rt.output(), bytes)
}

// Writes to standard error. What cannot be told is not.
pub fn tell<H: Host>(rt: &H, bytes: &[u8]) {
    let _ = write_all(rt, &mut rt.errors(), bytes);
}

// Tells on standard error what failed, with the system's text behind it.
pub fn fail<H: Host>(rt: &H, what: &[u8], error: io::Error) {
    tell(rt, what);
    tell(rt, b": ");
    if let Ok(text) = format!(in rt.alloc(); "{error}") {
        tell(rt, words(text.as_str()).as_bytes());
    }
    tell(rt, b"\n");
}

// The system's text without its number.
fn words(text: &str) -> &str {
    match text.split_once(" (os error ") {
        Some((words, _)) => words,
        None => text,
    }
}

// Answers how many bytes read gave. Where it fails, a line on standard error tells so, and there is no answer.
pub fn read_or_tell<H: Host, R: Read>(
    rt: &H,
    from: &mut R,
    buf: &mut [u8],
    what: &[u8],
) -> Option<usize>
    ensures { IfSome result (λ n. IsPrefixLen n buf.new) }
{
    match read(rt, from, buf) {
        Ok(n) => Some(n),
        Err(error) => {
            fail(rt, what, error);
            None
        }
    }
}

// Writes all of the bytes. Where that fails, a line on standard error tells so, and the answer is false.
pub fn write_or_tell<H: Host, W: Write>(rt: &H, to: &mut W, bytes: &[u8], what: &[u8]) -> bool
    ensures { IsTrue result → Appends (W.contents to.old) (W.contents to.new) bytes.now }
{
    match write_all(rt, to, bytes) {
        Ok(()) => true,
        Err(error) => {
            fail(rt, what, error);
            false
        }
    }
}
