// What the user asks for.
ghost use Rattle.std.specs.Prelude.{◌≤◌};

use iq_format::Format;
use program::{Kind, Named, Told, Word, Words};
use slot_text::{Form, Link, Style};
use std::env::Env;
use std::fmt;

// What is wrong with the command line.
#[derive(Clone, Copy, Debug, PartialEq, Eq)]
pub(crate) enum Wrong {
    Word(program::Wrong),
    UnknownFormat,
    NoValue,
    OneInput,
}

impl fmt::Display for Wrong {
    fn fmt<W: fmt::Write>(&self, f: &mut fmt::Formatter<W>) -> fmt::Result {
        match self {
            Wrong::Word(wrong) => write!(f, "{wrong}"),
            Wrong::UnknownFormat => f.write_str("--format takes cf32, cs16 or cu8"),
            Wrong::NoValue => f.write_str("the last option takes a value"),
            Wrong::OneInput => f.write_str("both links cannot be standard input"),
        }
    }
}

#[derive(Clone, Copy)]
pub(crate) struct Options {
    pub is_quiet: bool,
    pub is_progress: bool,
    pub has_bits: bool,
    pub form: Form,
    pub format: Format,
    pub downlink: Named,
    pub uplink: Option<Named>,
}

impl Options {
    // How lines of that link are written.
    pub(crate) fn style(self, link: Link) -> Style {
        Style {
            form: self.form,
            has_bits: self.has_bits,
            link,
        }
    }
}

// What the words up to the next one ask for.
#[derive(Clone, Copy)]
struct Reader {
    told: Option<Told<Wrong>>,
    // The downlink's file, where a word names it.
    downlink: Option<Named>,
    options: Options,
}

// The next word, an option's value. Where there is none, the words stay as they are: that reading never goes back is why the loop
// below ends.
fn value<'a, E: Env>(rt: &E, words: &mut Words, buf: &'a mut [u8]) -> Option<Word<'a>>
    ensures { words.old.at ≤ words.new.at }
{
    let mut behind = *words;
    let word = behind.value(rt, buf)?;
    *words = behind;
    Some(word)
}

impl Reader {
    fn new() -> Reader {
        Reader {
            told: None,
            downlink: None,
            options: Options {
                is_quiet: false,
                is_progress: false,
                has_bits: true,
                form: Form::Plain,
                format: Format::Cf32,
                downlink: Named::Input,
                uplink: None,
            },
        }
    }

    // The first thing that is wrong is told, but help and the version go before it.
    fn refuse(&mut self, wrong: Wrong) {
        self.told = self.told.or(Some(Told::Wrong(wrong)));
    }

    fn read_version(&mut self) {
        if self.told != Some(Told::Help) {
            self.told = Some(Told::Version);
        }
    }

    fn read_format(&mut self, value: Option<Word>) {
        match value.map(|word| word.text) {
            Some(b"cf32") => self.options.format = Format::Cf32,
            Some(b"cs16") => self.options.format = Format::Cs16,
            Some(b"cu8") => self.options.format = Format::Cu8,
            Some(_) => self.refuse(Wrong::UnknownFormat),
            None => self.refuse(Wrong::NoValue),
        }
    }

    fn read_uplink(&mut self, value: Option<Word>) {
        match value {
            Some(word) => self.options.uplink = Some(word.named()),
            None => self.refuse(Wrong::NoValue),
        }
    }

    // An option, whose value is the next word where it takes one.
    fn read_option<E: Env>(&mut self, rt: &E, option: &[u8], words: &mut Words)
        ensures { words.old.at ≤ words.new.at }
    {
        let mut buf = [0u8; 4096];
        match option {
            b"--quiet" => self.options.is_quiet = true,
            b"--progress" => self.options.is_progress = true,
            b"--no-bits" => self.options.has_bits = false,
            b"--json" => self.options.form = Form::Json,
            b"--format" => self.read_format(value(rt, words, &mut buf)),
            b"--uplink" => self.read_uplink(value(rt, words, &mut buf)),
            _ => self.refuse(Wrong::Word(program::Wrong::UnknownOption)),
        }
    }

    // A word that names the downlink's file.
    fn read_name(&mut self, word: Word) {
        if self.downlink.is_some() {
            self.refuse(Wrong::Word(program::Wrong::TwoNames));
        } else {
            self.downlink = Some(word.named());
        }
    }

    fn finish(mut self) -> Result<Options, Told<Wrong>> {
        self.options.downlink = self.downlink.unwrap_or(Named::Input);
        if self.options.downlink == Named::Input && self.options.uplink == Some(Named::Input) {
            self.refuse(Wrong::OneInput);
        }
        match self.told {
            Some(told) => Err(told),
            None => Ok(self.options),
        }
    }
}

pub(crate) fn read<E: Env>(rt: &E) -> Result<Options, Told<Wrong>> {
    let mut reader = Reader::new();
    let mut words = Words::new();
    let mut buf = [0u8; 4096];
    while let Some((kind, word)) = words.next(rt, &mut buf) {
        match kind {
            Kind::Ends => {}
            Kind::Help => reader.told = Some(Told::Help),
            Kind::Version => reader.read_version(),
            Kind::Option => reader.read_option(rt, word.text, &mut words),
            Kind::Name => reader.read_name(word),
        }
    }
    reader.finish()
}
