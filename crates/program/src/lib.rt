// What the programs share of their command lines: the words, help and version, and the file that is read.
#![tactic(auto)]

mod source;
mod words;

pub use source::Source;
use std::env::FillError;
use std::fmt::InlineText;
use std::io::Read;
use std::{fmt, fs, io};
use streams::Host;
use text::Text;
pub use words::{Kind, Named, Word, Words, is_word};

// What is wrong with words.
#[derive(Clone, Copy, Debug, PartialEq, Eq)]
pub enum Wrong {
    UnknownOption,
    TwoNames,
}

impl fmt::Display for Wrong {
    ghost use Rattle.std.specs.Prelude.{Some};
    ghost use Rattle.program.specs.Words.{wrong_text};

    ghost output = { λ wrong. Some (wrong_text wrong) };

    #[tactic(auto, unfolding(crate::specs::Words::wrong_text, text::specs::Text::ascii))]
    fn fmt<W: fmt::Write>(&self, f: &mut fmt::Formatter<W>) -> fmt::Result {
        f.write_str(match self {
            Wrong::UnknownOption => "unknown option",
            Wrong::TwoNames => "more than one file name",
        })
    }
}

// What is told in the place of a run.
#[derive(Clone, Copy, Debug, PartialEq, Eq)]
pub enum Told<W> {
    Help,
    Version,
    // What is wrong with the command line.
    Wrong(W),
}

// The system's numbers of its errors: there is no such file, its name is too long, its name is no text.
const NO_FILE: i32 = 2;

const TOO_LONG: i32 = 36;

const NO_TEXT: i32 = 84;

// Says on standard error what failed, between the program's name and the system's text.
pub fn fail<H: Host>(rt: &H, program: &[u8], what: &[u8], error: io::Error) {
    streams::tell(rt, program);
    streams::tell(rt, b": ");
    streams::fail(rt, what, error);
}

// Says on standard error what is wrong with the command line, in at most 256 bytes.
fn refuse<H: Host, D: fmt::Display + Drop>(rt: &H, program: &[u8], what: D) {
    let what = InlineText::<256>::of(what);
    let wrong = Text::new()
        .append(program)
        .append(b": ")
        .append(what.as_str().as_bytes());
    let line = wrong.append(b", see ").append(program).append(b" --help\n");
    line.tell(rt);
}

fn help<H: Host>(rt: &H, program: &[u8], text: &[u8]) {
    if let Err(error) = streams::print(rt, text) {
        fail(rt, program, b"the help cannot be written", error);
    }
}

// The version of all programs stands here, and tests/programs.sh holds it to the Makefile's.
fn version<H: Host>(rt: &H, program: &[u8]) {
    let line = Text::new().append(program).append(b" 0.1.0\n");
    if let Err(error) = line.print(rt) {
        fail(rt, program, b"the version cannot be written", error);
    }
}

// Tells what was asked for or is wrong, of a program with that help.
pub fn tell<H: Host, W: fmt::Display + Drop>(rt: &H, program: &[u8], text: &[u8], told: Told<W>) {
    match told {
        Told::Help => help(rt, program, text),
        Told::Version => version(rt, program),
        Told::Wrong(wrong) => refuse(rt, program, wrong),
    }
}

// The path that an argument is, as it stands in the buffer.
fn path_at<'a, H: Host>(rt: &H, at: usize, buf: &'a mut [u8]) -> io::Result<&'a str> {
    let code = match rt.arg(at, buf) {
        Ok(len) => match str::from_utf8(&buf[..len]) {
            Ok(path) => return Ok(path),
            Err(_) => NO_TEXT,
        },
        Err(FillError::TooLong) => TOO_LONG,
        Err(FillError::NotPresent) => NO_FILE,
    };
    Err(io::Error::from_raw_os_error(code))
}

// Opens what is named, or tells why not.
pub fn open<H: Host>(rt: &H, program: &[u8], named: Named) -> Option<Source<H::File>> {
    let at = match named {
        Named::Input => return Some(Source::Input(rt.input())),
        Named::Argument(at) => at,
    };
    let mut buf = [0u8; 4096];
    match path_at(rt, at, &mut buf) {
        Ok(path) => match fs::open(rt, path) {
            Ok(file) => return Some(Source::File(file)),
            Err(error) => fail(rt, program, path.as_bytes(), error),
        },
        Err(error) => fail(rt, program, b"the file name", error),
    }
    None
}

// The first word that asks for something decides; names are kept.
fn read_words<H: Host>(rt: &H) -> Result<Named, Told<Wrong>> {
    let mut words = Words::new();
    let mut named = None;
    let mut buf = [0u8; 4096];
    while let Some((kind, word)) = words.next(rt, &mut buf) {
        match kind {
            Kind::Ends => {}
            Kind::Help => return Err(Told::Help),
            Kind::Version => return Err(Told::Version),
            Kind::Option => return Err(Told::Wrong(Wrong::UnknownOption)),
            Kind::Name if named.is_some() => return Err(Told::Wrong(Wrong::TwoNames)),
            Kind::Name => named = Some(word.named()),
        }
    }
    Ok(named.unwrap_or(Named::Input))
}

// Answers the command line of a program that reads standard input or one file, and has no options of its own: gives what
// is to be read, or tells what was asked for or is wrong. (The `main` of three programs begins with it and differs in texts and in
// what is read: one function over these is no plainer.)
pub fn input<H: Host>(rt: &H, program: &[u8], text: &[u8]) -> Option<Source<H::File>> {
    match read_words(rt) {
        Ok(named) => open(rt, program, named),
        Err(told) => {
            tell(rt, program, text, told);
            None
        }
    }
}

// What the blocks of an input are given to.
pub trait Taker {
    // Whether it wants more.
    fn take<H: Host>(&mut self, rt: &H, block: &[u8]) -> bool;
}

// Gives away what is read, a block at a time, until no more is wanted or the input ends. The answer is false, and a line on
// standard error tells why, where the input cannot be read.
pub fn read_blocks<H: Host, R: Read, T: Taker>(
    rt: &H,
    from: &mut R,
    what: &[u8],
    block: &mut [u8],
    taker: &mut T,
) -> bool {
    // A proved loop has to end, and nothing says that an input does: it counts to a number that no run reaches.
    for _ in 0..u64::MAX {
        let Some(n) = streams::read_or_tell(rt, from, block, what) else {
            return false;
        };
        if n == 0 || !taker.take(rt, &block[..n]) {
            return true;
        }
    }
    true
}
