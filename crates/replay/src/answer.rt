// The lines that answer calls.
ghost use Rattle.std.specs.Prelude.{◌≡◌, ◌++◌};
ghost use Rattle.text.specs.Text.{cut, ascii, decimal};
ghost use Rattle.dsp_types.specs.Answers.{number_of};

use dsp_types::{ComplexSample, Refusal};
use text::Text;

pub(crate) fn ok() -> Text {
    Text::new().append(b"ok\n")
}

pub(crate) fn error() -> Text {
    Text::new().append(b"error\n")
}

// The text with a space and a number behind it.
pub(crate) fn with_number(text: Text, number: u64) -> Text {
    text.append(b" ").decimal(number)
}

pub(crate) fn refused(refusal: Refusal) -> Text
    ensures { result ≡ cut (ascii "refused " ++ decimal 20 (number_of refusal) ++ ascii "\n") }
{
    Text::new()
        .append(b"refused ")
        .decimal(u64::from(refusal.number()))
        .append(b"\n")
}

// The answer of a builder.
pub(crate) fn burst<const N: usize>(answer: Result<[u8; N], Refusal>) -> Text {
    match answer {
        Ok(bits) => Text::new().append(b"burst ").bits(&bits).append(b"\n"),
        Err(refusal) => refused(refusal),
    }
}

// The text with the bit pattern of a float behind it, 8 hexadecimal digits.
fn with_float(text: Text, x: f32) -> Text {
    let mut digits = [0u8; 16];
    let k = io::hex(iq_format::pattern(x) as u64, 8, &mut digits);
    text.append(&digits[..k])
}

pub(crate) fn float(x: f32) -> Text {
    with_float(Text::new(), x).append(b"\n")
}

pub(crate) fn sample(x: ComplexSample) -> Text {
    let re = with_float(Text::new().append(b"out "), x.re);
    with_float(re.append(b" "), x.im).append(b"\n")
}
