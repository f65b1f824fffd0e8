// The calls that build uplink bursts. Their blocks may be digits or pairs of hexadecimal digits.
use crate::answer::burst;
use crate::field::{ROOM, bytes, number};
use slotter::{build_cub, build_nub};
use text::Text;

pub(crate) fn build_normal(line: &[u8]) -> Option<Text> {
    let mut room: &mut [u8] = &mut [0; ROOM];
    let train = number(line, 1)?;
    let blk1 = bytes(line, 2, &mut room)?;
    let blk2 = bytes(line, 3, &mut room)?;
    Some(burst(build_nub(train, blk1, blk2)))
}

pub(crate) fn build_control(line: &[u8]) -> Option<Text> {
    let mut room: &mut [u8] = &mut [0; ROOM];
    let blk1 = bytes(line, 1, &mut room)?;
    let blk2 = bytes(line, 2, &mut room)?;
    Some(burst(build_cub(blk1, blk2)))
}
