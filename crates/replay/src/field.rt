// The fields of a line, which are parted by one space, and the numbers, samples and bits that they hold.
use dsp_types::{ComplexSample, SampleCount};

// Room for the values of a line's fields: no line is longer.
pub(crate) const ROOM: usize = 65536;

pub(crate) fn count(line: &[u8]) -> usize {
    line.split(|byte| *byte == b' ').count()
}

// The bytes from a place on; none where there are fewer.
pub(crate) fn behind(bytes: &[u8], at: usize) -> &[u8] {
    bytes.get(at..).unwrap_or_default()
}

// Field k; nothing where the line has fewer.
pub(crate) fn field(line: &[u8], k: usize) -> &[u8] {
    line.split(|byte| *byte == b' ').nth(k).unwrap_or_default()
}

// The byte of a field that has no other.
pub(crate) fn letter(line: &[u8], k: usize) -> Option<u8> {
    match field(line, k) {
        [byte] => Some(*byte),
        _ => None,
    }
}

// Field k as std reads a number, but without the `+` that std takes before one.
fn number_text(line: &[u8], k: usize) -> Option<&str> {
    str::from_utf8(field(line, k))
        .ok()
        .filter(|text| !text.starts_with('+'))
}

// The decimal u32 in field k: no call takes a larger number.
pub(crate) fn number(line: &[u8], k: usize) -> Option<u32> {
    number_text(line, k)?.parse().ok()
}

// The decimal i64 in field k.
pub(crate) fn counter(line: &[u8], k: usize) -> Option<SampleCount> {
    Some(SampleCount(number_text(line, k)?.parse().ok()?))
}

// The f32 in field k, whose bit pattern is 8 hexadecimal digits.
fn part(line: &[u8], k: usize) -> Option<f32> {
    let digits = number_text(line, k).filter(|digits| digits.len() == 8)?;
    Some(iq_format::float(u32::from_str_radix(digits, 16).ok()?))
}

// The sample whose parts are fields k and k + 1.
pub(crate) fn sample(line: &[u8], k: usize) -> Option<ComplexSample> {
    Some(ComplexSample {
        re: part(line, k)?,
        im: part(line, k.wrapping_add(1))?,
    })
}

// The digits in field k, behind its `=`.
pub(crate) fn digits(line: &[u8], k: usize) -> Option<&[u8]> {
    field(line, k)
        .strip_prefix(b"=")
        .filter(|text| text.iter().all(|byte| byte.is_ascii_digit()))
}

// The pairs of hexadecimal digits in field k, behind its `#`.
fn hex(line: &[u8], k: usize) -> Option<&[u8]> {
    field(line, k).strip_prefix(b"#").filter(|text| text.len() % 2 == 0
        && text.iter().all(|byte| byte.is_ascii_hexdigit()))
}

// The values of the digits in field k, for which the front of the room is taken off it.
pub(crate) fn bits<'a>(line: &[u8], k: usize, room: &mut &'a mut [u8]) -> Option<&'a [u8]> {
    let text = digits(line, k)?;
    let values = room.split_off_mut(..text.len())?;
    for (value, digit) in values.iter_mut().zip(text) {
        *value = digit.wrapping_sub(b'0');
    }
    Some(values)
}

fn hex_digit(byte: u8) -> u8 {
    char::from(byte).to_digit(16).unwrap_or_default() as u8
}

// The bytes of field k, likewise: a digit's value each, or that of a pair of hexadecimal digits.
pub(crate) fn bytes<'a>(line: &[u8], k: usize, room: &mut &'a mut [u8]) -> Option<&'a [u8]> {
    let Some(text) = hex(line, k) else {
        return bits(line, k, room);
    };
    let (pairs, _) = text.as_chunks::<2>();
    let bytes = room.split_off_mut(..pairs.len())?;
    for (byte, [high, low]) in bytes.iter_mut().zip(pairs) {
        *byte = hex_digit(*high) << 4 | hex_digit(*low);
    }
    Some(bytes)
}
