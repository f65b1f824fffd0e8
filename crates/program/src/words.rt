// The words of the command line, read one behind the other.
ghost use Rattle.std.specs.Prelude.{◌≡◌, ◌+◌, ◌%◌, ◌^◌, ◌<◌, ◌≤◌, false, ◌||◌, length, IfSome, MatchOption};
ghost use Rattle.program.specs.Words.{same_word, is_option, kind_of_word, kind_of_word_at, named_at};
ghost use Rattle.text.specs.Text.{ascii};

use std::env::{Env, FillError};

#[derive(Clone, Copy, Debug, PartialEq, Eq)]
pub enum Kind {
    // `--`: no word behind it is an option.
    Ends,
    Help,
    Version,
    // Any other word that starts with a minus. A minus alone is a name.
    Option,
    Name,
}

// The file that a word names: standard input, or the one whose path the argument at that place is.
#[derive(Clone, Copy, Debug, PartialEq, Eq)]
pub enum Named {
    Input,
    Argument(usize),
}

// A word, and its place among the arguments.
#[derive(Clone, Copy)]
pub struct Word<'a> {
    pub at: usize,
    pub text: &'a [u8],
}

// The argument that is read next, and whether `--` was read.
#[derive(Clone, Copy)]
pub struct Words {
    pub at: usize,
    pub is_ended: bool,
}

#[tactic(auto, using(crate::proofs::Tests::long, crate::proofs::Tests::short))]
fn is_option(word: &[u8]) -> bool
    ensures { result ≡ is_option word.now }
{
    1 < word.len() && word.starts_with(b"-")
}

// An argument, where there is one, at the start of the buffer: an empty one where there is no room for it.
fn arg<'a, E: Env>(rt: &E, at: usize, buf: &'a mut [u8]) -> Option<&'a [u8]>
    ensures { IfSome result (λ text. length text.now ≤ length buf.old) }
{
    let len = match rt.arg(at, buf) {
        Ok(len) => len,
        Err(FillError::TooLong) => 0,
        Err(FillError::NotPresent) => return None,
    };
    Some(&buf[..len])
}

// Whether a word is that one, as where a program looks for an option of its own.
#[tactic(auto, using(crate::proofs::Tests::same_is))]
pub fn is_word(word: &[u8], that: &[u8]) -> bool
    ensures { result ≡ same_word word.now that.now }
{
    word == that
}

// What a word is where options may stand. (A match on the words was tried: it tests byte by byte, and the proof did not close
// where none is met, twenty ways to get there.)
#[tactic(auto, unfolding(crate::specs::Words::kind_of_word, text::specs::Text::ascii))]
fn kind_of(word: &[u8]) -> Kind
    ensures { result ≡ kind_of_word word.now }
{
    if is_word(word, b"--") {
        Kind::Ends
    } else if is_word(word, b"--help") {
        Kind::Help
    } else if is_word(word, b"--version") {
        Kind::Version
    } else if is_option(word) {
        Kind::Option
    } else {
        Kind::Name
    }
}

// The same behind `--`, where each word is a name.
#[tactic(auto, unfolding(crate::specs::Words::kind_of_word_at))]
fn kind_at(is_ended: bool, word: &[u8]) -> Kind
    ensures { result ≡ kind_of_word_at is_ended word.now }
{
    if is_ended { Kind::Name } else { kind_of(word) }
}

impl Word<'_> {
    // The file that the word names: a minus stands for standard input.
    #[tactic(auto, unfolding(crate::specs::Words::named_at, text::specs::Text::ascii))]
    pub fn named(self) -> Named
        ensures { result ≡ named_at self.entry.at self.entry.text.now }
    {
        if is_word(self.text, b"-") {
            Named::Input
        } else {
            Named::Argument(self.at)
        }
    }
}

impl Words {
    // The words behind the program's own name.
    pub fn new() -> Words
        ensures { (result.at ≡ 1) × (result.is_ended ≡ false) }
    {
        Words {
            at: 1,
            is_ended: false,
        }
    }

    // The next word, as it stands at the start of the buffer, as where an option takes a value; none behind the last. One
    // that the buffer has no room for is read as an empty one.
    pub fn value<'a, E: Env>(&mut self, rt: &E, buf: &'a mut [u8]) -> Option<Word<'a>>
        ensures len_bound { IfSome result (λ word. length word.text.now ≤ length buf.old) }
        ensures place { IfSome result (λ word. (word.at ≡ self.old.at) × (self.old.at < self.new.at)) }
        ensures at_value { (self.new.at ≡ (self.old.at + 1) % 2 ^ 64) × (self.new.is_ended ≡ self.old.is_ended) }
    {
        let at = self.at;
        self.at = at.wrapping_add(1);
        let text = arg(rt, at, buf)?;
        // No word has the last place that can be counted, so that reading on ends.
        if self.at == 0 {
            return None;
        }
        Some(Word { at, text })
    }

    // The same, and what it is.
    #[tactic(auto, unfolding(text::specs::Text::ascii))]
    pub fn next<'a, E: Env>(&mut self, rt: &E, buf: &'a mut [u8]) -> Option<(Kind, Word<'a>)>
        ensures len_bound { IfSome result (λ told. length told.1.text.now ≤ length buf.old) }
        ensures place { IfSome result (λ told. (told.1.at ≡ self.old.at) × (self.old.at < self.new.at)) }
        ensures kind_value { IfSome result (λ told. told.0 ≡ kind_of_word_at self.old.is_ended told.1.text.now) }
        ensures at_value { self.new.at ≡ (self.old.at + 1) % 2 ^ 64 }
        ensures is_ended_value { MatchOption result (self.new.is_ended ≡ self.old.is_ended)
            (λ told. self.new.is_ended ≡ (self.old.is_ended || same_word told.1.text.now (ascii "--"))) }
    {
        let word = self.value(rt, buf)?;
        let kind = kind_at(self.is_ended, word.text);
        self.is_ended |= is_word(word.text, b"--");
        Some((kind, word))
    }
}
