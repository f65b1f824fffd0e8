// The filter line (fir.rs): the newest 32 samples, and the symmetric filter over them, for a sample or a block.
#![tactic(auto)]

ghost use Rattle.std.specs.Prelude.{◌≡◌, [], ◌∷◌, ◌++◌, ◌<◌, ◌≤◌, length, take, drop, replicate};
ghost use Rattle.dsp_types.specs.Samples.{silence, ago};
ghost use Rattle.fir.specs.Fir.{fir_of, filter_of, in_row, line_of, row_outs, filter_row, start_with, line_after, outs_of, block_of, re_of, im_of};

use dsp_types::ComplexSample;

// Channel filter taps (modem_common.rs).
const CHANNEL_FILTER_TAPS: [f32; 16] = [
    0.2649718,
    0.20002119,
    0.10064187,
    0.00998249,
    -0.04014123,
    -0.04405674,
    -0.01982716,
    0.00642452,
    0.01744363,
    0.01213436,
    0.00071221,
    -0.00609533,
    -0.00488494,
    0.00028619,
    0.00345407,
    0.00220812,
];

// The parts of the newest 32 samples, oldest first. Two arrays, as C has them: the compiler works on several elements of one part at once.
#[repr(C)]
#[derive(Clone, Copy)]
pub struct FirComplexSym {
    pub re: [f32; 32],
    pub im: [f32; 32],
}

// The filter over the first 32 elements of a row, oldest first. With the lanes in an array and the taps in a
// local the compiler works on four at once. The loops count, since tap k = v + 4 t is the filter's own index.
fn filter_part(row: &[f32]) -> f32
    requires { 31 < length row.now }
    ensures { result ≡ fir_of (in_row row.now) }
{
    let taps = CHANNEL_FILTER_TAPS;
    let mut sum = [0.0f32; 4];
    for t in 0..4 {
        for v in 0..4 {
            let k = v + 4 * t;
            sum[v] = sum[v] + (row[16 + k] + row[15 - k]) * taps[k];
        }
    }
    sum[0] + sum[1] + sum[2] + sum[3]
}

// One part of a block. The row holds 31 old samples and the block, oldest first; output n has row[n + 31] as
// its newest sample. What the row is too short for is left as it was. The loop counts: of elements that are written beside those
// of another slice (`iter_mut().zip(..)`) a proof knows nothing.
fn filter_block(row: &[f32], out: &mut [f32])
    ensures { out.new ≡ filter_row row.now out.old }
{
    let count = row.len().saturating_sub(31).min(out.len());
    for n in 0..count {
        out[n] = filter_part(&row[n..]);
    }
}

// One part of the line takes x as its newest sample: from the newest place down each element makes way. (A copy of the others by a
// place is `memmove`, which C would have to link.)
fn push(line: &mut [f32; 32], x: f32)
    ensures { line.new ≡ drop 1 line.old ++ (x ∷ []) }
{
    let mut next = x;
    for k in 0..32 {
        let old = line[31 - k];
        line[31 - k] = next;
        next = old;
    }
}

// One part of a block: writes its outputs, and the line takes the block.
fn block_part(line: &mut [f32; 32], block: &[f32], out: &mut [f32])
    requires { (length block.now ≤ 1024) × (length block.now ≤ length out.old) }
    ensures line_after { line.new ≡ drop (length block.now) (line.old ++ block.now) }
    ensures out_after { out.new ≡ start_with (row_outs (length block.now) (drop 1 (line.old ++ block.now))) out.old }
{
    let n = block.len();
    let mut row = [0.0f32; 1056];
    row[..32].copy_from_slice(line);
    row[32..n + 32].copy_from_slice(block);
    filter_block(&row[1..n + 32], out);
    line.copy_from_slice(&row[n..n + 32]);
}

impl FirComplexSym {
    pub fn new() -> FirComplexSym
        ensures { line_of result ≡ replicate 32 silence }
    {
        FirComplexSym {
            re: [0.0; 32],
            im: [0.0; 32],
        }
    }

    // Pushes a sample into the line, and gives what the filter makes of it.
    pub fn sample(&mut self, in_: ComplexSample) -> ComplexSample
        ensures out { result ≡ filter_of (ago silence (in_ ∷ line_of self.old)) }
        ensures line { line_of self.new ≡ take 32 (in_ ∷ line_of self.old) }
    {
        push(&mut self.re, in_.re);
        push(&mut self.im, in_.im);
        ComplexSample {
            re: filter_part(&self.re),
            im: filter_part(&self.im),
        }
    }

    // A block of samples, oldest first, in one call: the same line and outputs as sample by sample. At most
    // 1,024 are taken, and no more than each of the four slices has room for.
    pub fn block(&mut self, re: &[f32], im: &[f32], out_re: &mut [f32], out_im: &mut [f32])
        ensures line { line_of self.new ≡ line_after (line_of self.old) (block_of re.now im.now out_re.old out_im.old) }
        ensures outs_re { out_re.new ≡ start_with (re_of (outs_of (line_of self.old) (block_of re.now im.now out_re.old out_im.old))) out_re.old }
        ensures outs_im { out_im.new ≡ start_with (im_of (outs_of (line_of self.old) (block_of re.now im.now out_re.old out_im.old))) out_im.old }
    {
        let given = re.len().min(im.len());
        let room = out_re.len().min(out_im.len());
        let n = given.min(room.min(1024));
        block_part(&mut self.re, &re[..n], out_re);
        block_part(&mut self.im, &im[..n], out_im);
    }
}
