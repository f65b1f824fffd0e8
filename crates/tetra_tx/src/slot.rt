// The slot that a line asks for.
use arrayvec::ArrayString;
use block_text::{Complaint, LineSlot};
use std::fmt::Write;
use streams::Host;

// Tells what is wrong with the line of that number: at most 115 bytes.
fn complain<H: Host>(rt: &H, number: u64, complaint: Complaint) {
    let mut told = ArrayString::<128>::new();
    let _ = writeln!(told, "tetra_tx: line {number}: {complaint}");
    streams::tell(rt, told.as_str().as_bytes());
}

pub(crate) fn of_line<H: Host>(rt: &H, number: u64, line: &[u8]) -> LineSlot {
    let read = block_text::slot_of(line);
    if let Some(complaint) = read.complaint {
        complain(rt, number, complaint);
    }
    read.slot
}
