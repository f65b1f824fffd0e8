// The listing of a burst's adjustment bits: from the bytes of an input to those of the output.
#![tactic(auto)]

ghost use Rattle.std.specs.Prelude.{◌≡◌, ℕ, List, [], ◌∷◌, ◌++◌, length};
ghost use Rattle.text.specs.Text.{cut};
ghost use Rattle.dsp_types.specs.Answers.{number_of};
ghost use Rattle.slotter.specs.Bursts.{builder_reply};
ghost use Rattle.block_text.specs.BlockText.{type_or_0};
ghost use Rattle.lister.specs.Listing.{signed_decimal, refusal_line, burst_lines, listed_answer, listing};
ghost use Rattle.lister.specs.Inputs.{input_bytes};

use block_text::{BurstType, answer, not_character};
use dsp_types::Refusal;
use slotter::Burst;
use text::Text;

// The text with a whole number in decimal behind it.
fn with_signed(text: Text, n: i32) -> Text
    ensures { result ≡ cut (text ++ signed_decimal n) }
{
    let signed = if n < 0 { text.append(b"-") } else { text };
    signed.decimal(n.unsigned_abs() as u64)
}

// What is printed of a refusal.
fn refused(refusal: Refusal) -> Text
    ensures { result ≡ cut (refusal_line (number_of refusal)) }
{
    Text::new()
        .append(b"refused=")
        .decimal(refusal.number() as u64)
        .append(b"\n")
}

// What is printed of a burst. (There is one only where the letter asks for a type, which the types do not say; `type_name` has a
// name for none too.)
fn built(burst_type: Option<BurstType>, burst: Burst) -> Text
    ensures { result ≡ cut (burst_lines (type_or_0 burst_type) burst.first_sum burst.last_sum burst.bits) }
{
    let adj_first = &burst.bits[12..14];
    let adj_last = &burst.bits[498..500];
    let number = burst_type.map_or(0, BurstType::number);
    let named = Text::new().append(b"kind=").type_name(number);
    let one = with_signed(named.append(b"\nsum_first="), burst.first_sum)
        .append(b"\nadj_first=")
        .bits(adj_first);
    with_signed(one.append(b"\nsum_last="), burst.last_sum)
        .append(b"\nadj_last=")
        .bits(adj_last)
        .append(b"\n")
}

// What is printed of an answer to a letter that asks for that type.
fn print(burst_type: Option<BurstType>, answer: Result<Burst, Refusal>) -> Text
    ensures { result ≡ cut (listed_answer (type_or_0 burst_type) (builder_reply answer)) }
{
    match answer {
        Ok(burst) => built(burst_type, burst),
        Err(refusal) => refused(refusal),
    }
}

// The listing of an input of any length.
fn listing(input: &[u8]) -> Text
    ensures { result ≡ cut (listing input.now) }
{
    let Some((letter, characters)) = text::trimmed(input, b'\n').split_first() else {
        return refused(Refusal::BadLength);
    };
    let burst_type = BurstType::of_letter(*letter);
    print(
        burst_type,
        answer(burst_type.map_or(0, BurstType::number), characters),
    )
}

// Keeps one byte more where there is no room. 465 bytes are too many for each of the three letters. Behind another letter what
// counts is the last byte and whether one before it was other than 0 and 1.
fn replace_last(bytes: &mut [u8], b: u8)
    requires { length bytes.old ≡ 465 }
    ensures { (t : List ℕ) → listing (bytes.new ++ t) ≡ listing (bytes.old ++ (b ∷ t)) }
{
    let last = bytes[464];
    if not_character(last) {
        bytes[1] = last;
    }
    bytes[464] = b;
}

// What is kept of an input that comes in pieces: bytes with the same listing, whatever follows.
#[derive(Clone, Copy)]
pub struct Input {
    pub bytes: [u8; 465],
    pub len: usize,
}

impl Input {
    #[tactic(auto, unfolding(crate::specs::Inputs::input_bytes))]
    pub fn new() -> Input
        ensures { input_bytes result ≡ [] }
    {
        Input {
            bytes: [0; 465],
            len: 0,
        }
    }

    // One byte more.
    fn push(&mut self, b: u8)
        ensures { (t : List ℕ) → listing (input_bytes self.new ++ t) ≡ listing (input_bytes self.old ++ (b ∷ t)) }
    {
        if self.len < 465 {
            self.bytes[self.len] = b;
            self.len += 1;
        } else {
            replace_last(&mut self.bytes, b);
        }
    }

    // A piece more.
    pub fn feed(&mut self, piece: &[u8])
        ensures { (t : List ℕ) → listing (input_bytes self.new ++ t) ≡ listing (input_bytes self.old ++ (piece.now ++ t)) }
    {
        for b in piece {
            self.push(*b);
        }
    }

    // The listing of all the pieces.
    pub fn listed(&self) -> Text
        ensures { result ≡ listing (input_bytes self.now) }
    {
        listing(text::front(&self.bytes, self.len))
    }
}
