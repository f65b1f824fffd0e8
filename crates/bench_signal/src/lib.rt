// The filter in both forms, the magnitude, the sender's single call and the receiver's block call over whole slices, for
// `make bench` to time from outside.
#![tactic(auto)]

mod receive;

use dsp_types::{ComplexSample, SampleCount, TdmaTime};
use fir::FirComplexSym;
use modulator::{DqpskMapper, Modulator};

// The filter from a new line, one call a sample.
#[unsafe(no_mangle)]
pub extern "C" fn bench_filter_single(
    re: &[f32],
    im: &[f32],
    out_re: &mut [f32],
    out_im: &mut [f32],
) {
    let mut line = FirComplexSym::new();
    let given = re.iter().zip(im);
    let outs = out_re.iter_mut().zip(out_im);
    for ((re, im), (out_re, out_im)) in given.zip(outs) {
        let out = line.sample(ComplexSample { re: *re, im: *im });
        *out_re = out.re;
        *out_im = out.im;
    }
}

// The filter from a new line, 256 samples a call and in the last one what is left.
#[unsafe(no_mangle)]
pub extern "C" fn bench_filter_block(
    re: &[f32],
    im: &[f32],
    out_re: &mut [f32],
    out_im: &mut [f32],
) {
    let mut line = FirComplexSym::new();
    let given = re.chunks(256).zip(im.chunks(256));
    let outs = out_re.chunks_mut(256).zip(out_im.chunks_mut(256));
    for ((re, im), (out_re, out_im)) in given.zip(outs) {
        line.block(re, im, out_re, out_im);
    }
}

// The magnitude of each sample.
#[unsafe(no_mangle)]
pub extern "C" fn bench_magnitude(re: &[f32], im: &[f32], out: &mut [f32]) {
    magnitude::magnitudes(re, im, out);
}

// Slot 0 from a new sender, one call a sample: as many samples as there is room for, re and im in turn, or up to the first
// that is refused. Returns how many.
#[unsafe(no_mangle)]
pub extern "C" fn bench_send_single(bits: &[u8], out: &mut [f32]) -> usize {
    let count = out.len() / 2;
    let mut modulator = Modulator::new();
    let mut mapper = DqpskMapper::new();
    for (n, pair) in out.chunks_exact_mut(2).enumerate() {
        let counter = SampleCount(n as i64);
        match modulator.sample(&mut mapper, counter, TdmaTime(0), Some(bits)) {
            Ok(sample) => {
                pair[0] = sample.re;
                pair[1] = sample.im;
            }
            Err(_) => return n,
        }
    }
    count
}
