// What a list of calls works on: receivers, a lone filter line, and a sender with its phase record.
use crate::answer::{ok, refused, sample};
use crate::field::{ROOM, bits, count, counter, field, letter, number};
use crate::receivers::Receivers;
use crate::{field, receivers, stateless, uplink};
use dsp_types::{ComplexSample, TdmaTime};
use fir::FirComplexSym;
use modulator::{DqpskMapper, Modulator};
use text::Text;

// A sender and its phase record.
#[derive(Clone, Copy)]
struct Sender {
    modulator: Modulator,
    mapper: DqpskMapper,
}

#[derive(Drop)]
pub struct Session {
    receivers: Receivers,
    filter: FirComplexSym,
    // The sender that a call has made.
    sender: Option<Sender>,
}

impl Sender {
    fn new() -> Sender {
        Sender {
            modulator: Modulator::new(),
            mapper: DqpskMapper::new(),
        }
    }

    // One sample, as a block of one. Bits that are given as `-` are none.
    fn send(&mut self, line: &[u8]) -> Option<Text> {
        let mut room: &mut [u8] = &mut [0; ROOM];
        let counter = counter(line, 1)?;
        let time = TdmaTime(number(line, 2)?);
        let bits = bits(line, 3, &mut room);
        if bits.is_none() && letter(line, 3)? != b'-' {
            return None;
        }
        let mut parts = [0.0f32; 2];
        let sent = self
            .modulator
            .block(&mut self.mapper, counter, time, bits, &mut parts);
        Some(match sent.refusal {
            None => sample(ComplexSample {
                re: parts[0],
                im: parts[1],
            }),
            Some(refusal) => refused(refusal),
        })
    }
}

impl Session {
    pub(crate) fn new() -> Session {
        Session {
            receivers: [None; 4],
            filter: FirComplexSym::new(),
            sender: None,
        }
    }

    fn renew_filter(&mut self) -> Text {
        self.filter = FirComplexSym::new();
        ok()
    }

    fn renew_sender(&mut self) -> Text {
        self.sender = Some(Sender::new());
        ok()
    }

    // Makes the call of a line, if it is one: the number of its fields and the first of them say which.
    pub(crate) fn step(&mut self, line: &[u8]) -> Option<Text> {
        match (count(line), field(line, 0)) {
            (3, b"new") => receivers::renew(&mut self.receivers, line),
            (5, b"s") => receivers::sample(&mut self.receivers, line),
            (5, b"t") => receivers::take(&mut self.receivers, line, false),
            (5, b"T") => receivers::take(&mut self.receivers, line, true),
            (3, b"f") => receivers::follow(&mut self.receivers, line),
            (1, b"txnew") => Some(self.renew_sender()),
            (4, b"w") => self.sender.as_mut()?.send(line),
            (4, b"j") => stateless::judge(line),
            (3, b"b") => stateless::build_joined(line),
            (5, b"d") => stateless::build(line),
            (4, b"u") => uplink::build_normal(line),
            (3, b"c") => uplink::build_control(line),
            (1, b"lnew") => Some(self.renew_filter()),
            (3, b"l") => Some(sample(self.filter.sample(field::sample(line, 1)?))),
            (3, b"m") => stateless::magnitude_of(line),
            (3, b"a") => stateless::turns_of(line),
            _ => None,
        }
    }
}
