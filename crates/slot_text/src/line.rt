// The line of a slot.
ghost use Rattle.std.specs.Prelude.{◌≡◌, [], ◌++◌};
ghost use Rattle.text.specs.Text.{cut};
ghost use Rattle.slot_text.specs.Fields.{fields_text};
ghost use Rattle.slot_text.specs.Lines.{link_fields, bits_fields, burst_fields, half_fields, slot_line, burst_read, slot_read};

use crate::{Link, Style};
use rx_slot::{RxBurst, RxSlot};
use text::Text;

// A burst and its bits.
#[derive(Clone, Copy)]
struct Burst<'a> {
    told: RxBurst,
    bits: &'a [u8],
}

// Where nothing is shown, nothing is appended. (The text alone was tried: that a text which comes in is its own cut is not known.)
impl Style {
    #[tactic(auto, unfolding(crate::specs::Lines::link_fields, crate::specs::Fields::fields_text, text::specs::Text::ascii))]
    fn with_link(self, text: Text) -> Text
        ensures { result ≡ cut (text ++ fields_text self.form (link_fields self.link)) }
    {
        match self.link {
            Link::Alone => text.append(b""),
            Link::Down => self.form.with_word(text, b"link", b"down"),
            Link::Up => self.form.with_word(text, b"link", b"up"),
        }
    }

    #[tactic(auto, using(crate::proofs::Pieces::worded), unfolding(crate::specs::Lines::bits_fields, crate::specs::Fields::fields_text, text::specs::Text::ascii))]
    fn with_bits(self, text: Text, prefix: &[u8], bits: &[u8]) -> Text
        ensures { result ≡ cut (text ++ fields_text self.form (bits_fields self.has_bits prefix.now bits.now)) }
    {
        if bits.is_empty() || !self.has_bits {
            return text.append(b"");
        }
        let worded = self.form.up_to_word(text, prefix, b"bits").bits(bits);
        self.form.quote(worded)
    }

    // With a burst's type, wrong training bits and bits.
    fn with_burst(self, text: Text, prefix: &[u8], burst: Burst) -> Text
        ensures { result ≡ cut (text ++ fields_text self.form (burst_fields self.has_bits prefix.now (burst_read burst.entry.told burst.entry.bits.now))) }
    {
        let told = burst.told;
        let typed = self.form.with_type(text, prefix, told.train_type);
        let judged = self
            .form
            .with_next_number(typed, prefix, b"errors", told.train_errs as u64);
        self.with_bits(judged, prefix, burst.bits)
    }

    // With the bursts of an uplink slot's halves.
    #[tactic(auto, using(text::proofs::Cutting::onto, crate::proofs::Pieces::pieces, crate::proofs::Pieces::fields_append), unfolding(crate::specs::Lines::half_fields, crate::specs::Fields::fields_text, text::specs::Text::ascii))]
    fn with_halves(self, text: Text, first: Burst, second: Burst) -> Text
        ensures { result ≡ cut (text ++ fields_text self.form (half_fields self.has_bits self.link (burst_read first.entry.told first.entry.bits.now) (burst_read second.entry.told second.entry.bits.now))) }
    {
        match self.link {
            Link::Alone | Link::Down => text.append(b""),
            Link::Up => {
                let half = self.with_burst(text, b"half1_", first);
                self.with_burst(half, b"half2_", second)
            }
        }
    }
}

// A slot's number, closing counter and bursts, with the bits of each.
pub fn slot_line(style: Style, slot: RxSlot, bits: &[u8], bits1: &[u8], bits2: &[u8]) -> Text
    ensures { result ≡ cut (slot_line style.form style.has_bits style.link (slot_read slot bits.now bits1.now bits2.now)) }
{
    let form = style.form;
    let full = Burst {
        told: slot.full,
        bits,
    };
    let first = Burst {
        told: slot.subslot1,
        bits: bits1,
    };
    let second = Burst {
        told: slot.subslot2,
        bits: bits2,
    };
    let opened = form.by_form(Text::new(), b"", b"{");
    let numbered = form.with_number(opened, b"", b"slot", slot.time.0 as u64);
    // The counter of a slot that was taken is 0 or more.
    let counter = dsp_types::unsigned(slot.closing_counter.0);
    let timed = form.with_next_number(numbered, b"", b"sample", counter);
    let linked = style.with_link(timed);
    let shown = style.with_burst(linked, b"", full);
    let whole = style.with_halves(shown, first, second);
    form.by_form(whole, b"\n", b"}\n")
}
