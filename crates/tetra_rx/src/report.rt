// What is told on standard error.
use slot_receiver::Mode;
use slot_text::Link;
use streams::Host;
use text::Text;

// Takes the progress line away, before a line that may stand on the same terminal.
pub(crate) fn clear<H: Host>(rt: &H) {
    streams::tell(rt, b"\r\x1b[K");
}

// Where a report begins, of the downlink or of an uplink beside it. It takes the place of a progress line.
pub(crate) fn begun(link: Link, is_progress: bool) -> Text {
    let start = Text::new();
    let line = if is_progress {
        start.append(b"\r\x1b[Ktetra_rx: ")
    } else {
        start.append(b"tetra_rx: ")
    };
    match link {
        Link::Up => line.append(b"uplink: "),
        Link::Alone | Link::Down => line,
    }
}

// Words and a number.
pub(crate) fn with_number(text: Text, words: &[u8], n: u64) -> Text {
    text.append(words).decimal(n)
}

// So many of something, one or several.
pub(crate) fn with_count(text: Text, n: u64, what: &[u8]) -> Text {
    let counted = text.decimal(n).append(what);
    if n == 1 {
        counted
    } else {
        counted.append(b"s")
    }
}

// What a downlink's receiver does.
pub(crate) fn with_mode(text: Text, mode: Mode) -> Text {
    match mode {
        Mode::Dl => text.append(b"locked"),
        Mode::DlUnsynchronized | Mode::Idle | Mode::Ul => text.append(b"searching"),
    }
}

// A level, so many dB below full scale.
pub(crate) fn with_level(text: Text, below: u32) -> Text {
    let signed = if below == 0 { text } else { text.append(b"-") };
    signed.decimal(below as u64).append(b" dBFS")
}

pub(crate) fn tell<H: Host>(rt: &H, text: Text, words: &[u8]) {
    text.append(words).tell(rt);
}
