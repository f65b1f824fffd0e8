// The calls on receivers.
ghost use Rattle.std.specs.Prelude.{IfSome, ◌<◌};

use crate::answer::{error, ok, refused, with_number};
use crate::field;
use crate::field::{counter, number};
use demodulator::Demodulator;
use dsp_types::{Refusal, unsigned};
use rx_slot::{RxBurst, RxSlot};
use slot_receiver::Mode;
use text::Text;

// Those that calls have made.
pub(crate) type Receivers = [Option<Demodulator>; 4];

// The bytes that are lent to a take of a slot and of its halves.
#[derive(Drop)]
struct Lent {
    slot: [u8; 4096],
    half1: [u8; 4096],
    half2: [u8; 4096],
}

// The number of a receiver or a mode, 0 to 3, in field k.
fn low(line: &[u8], k: usize) -> Option<usize>
    ensures { IfSome result (λ n. n < 4) }
{
    usize::try_from(number(line, k)?).ok().filter(|n| *n < 4)
}

// The first of the lent bytes, as many as field k says, where there are so many.
fn front<'a>(lent: &'a mut [u8; 4096], line: &[u8], k: usize) -> Option<&'a mut [u8]> {
    lent.get_mut(..number(line, k)? as usize)
}

fn is_all(bytes: &[u8], byte: u8) -> bool {
    bytes.iter().all(|b| *b == byte)
}

// The text with type, errors and bits of a burst behind it.
fn with_burst(text: Text, told: RxBurst, lent: &[u8]) -> Text {
    let kind = with_number(text, told.train_type as u64);
    let start = with_number(kind, told.train_errs as u64);
    if told.burst_len == 0 {
        return start.append(b" -");
    }
    start.append(b" ").bits(text::front(lent, told.burst_len))
}

// Whether the bytes behind a burst in a slice of that length are 0.
fn is_padded(told: RxBurst, lent: &[u8], len: usize) -> bool {
    is_all(field::behind(text::front(lent, len), told.burst_len), 0)
}

// The text with the slot's number, and the counter behind it where it is told.
fn slot_number(told: RxSlot, has_counter: bool) -> Text {
    let number = with_number(Text::new().append(b"slot"), told.time.0 as u64);
    if has_counter {
        with_number(number, unsigned(told.closing_counter.0))
    } else {
        number
    }
}

impl Lent {
    fn new() -> Lent {
        Lent {
            slot: [7; 4096],
            half1: [7; 4096],
            half2: [7; 4096],
        }
    }

    // Whether a take has written nothing.
    fn is_new(&self) -> bool {
        is_all(&self.slot, 7) && is_all(&self.half1, 7) && is_all(&self.half2, 7)
    }

    // Whether the bytes behind each burst are 0.
    fn is_padded(&self, told: RxSlot) -> bool {
        is_padded(told.full, &self.slot, 510)
            && is_padded(told.subslot1, &self.half1, 254)
            && is_padded(told.subslot2, &self.half2, 254)
    }

    // The text with the slot's bursts behind it.
    fn behind(&self, text: Text, told: RxSlot) -> Text {
        let full = with_burst(text, told.full, &self.slot);
        let first = with_burst(full, told.subslot1, &self.half1);
        with_burst(first, told.subslot2, &self.half2).append(b"\n")
    }

    // The answer to a take.
    fn taken(&self, answer: Result<RxSlot, Refusal>, has_counter: bool) -> Text {
        match answer {
            Ok(told) if self.is_padded(told) => self.behind(slot_number(told, has_counter), told),
            Err(refusal) if self.is_new() => refused(refusal),
            _ => error(),
        }
    }
}

// The answer to a call that is accepted with that text or refused.
fn told(answer: Result<(), Refusal>, accepted: Text) -> Text {
    match answer {
        Ok(()) => accepted,
        Err(refusal) => refused(refusal),
    }
}

// The receiver of a line, where it was made.
fn receiver<'a>(receivers: &'a mut Receivers, line: &[u8]) -> Option<&'a mut Demodulator> {
    receivers[low(line, 1)?].as_mut()
}

pub(crate) fn renew(receivers: &mut Receivers, line: &[u8]) -> Option<Text> {
    let mode = Mode::from(low(line, 2)? as u32);
    receivers[low(line, 1)?] = Some(Demodulator::new(mode));
    Some(ok())
}

// The leader may be the receiver itself.
pub(crate) fn follow(receivers: &mut Receivers, line: &[u8]) -> Option<Text> {
    let leader = receivers[low(line, 2)?]?;
    let answer = receiver(receivers, line)?.sync_to_demodulator(&leader);
    Some(told(answer, ok()))
}

pub(crate) fn sample(receivers: &mut Receivers, line: &[u8]) -> Option<Text> {
    let receiver = receiver(receivers, line)?;
    let answer = receiver.sample(field::sample(line, 3)?, counter(line, 2)?);
    Some(told(answer, Text::new()))
}

// Takes a slot, told with its closing counter or without.
pub(crate) fn take(receivers: &mut Receivers, line: &[u8], has_counter: bool) -> Option<Text> {
    let mut lent = Lent::new();
    let answer = receiver(receivers, line)?.take_demodulated_slot(
        front(&mut lent.slot, line, 2)?,
        front(&mut lent.half1, line, 3)?,
        front(&mut lent.half2, line, 4)?,
    );
    Some(lent.taken(answer, has_counter))
}
