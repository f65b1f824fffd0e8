// Samples through the matched filter and into the past.
ghost use Rattle.std.specs.Prelude.{◌≡◌, take, replicate};
ghost use Rattle.dsp_types.specs.Samples.{zero_f};
ghost use Rattle.fir.specs.Fir.{samples_of};
ghost use Rattle.listener.specs.Signal.{unheard, hear, hear_all};
ghost use Rattle.listener.specs.View.{signal_of};

use crate::Listener;
use dsp_types::ComplexSample;
use fir::FirComplexSym;

// So many samples are filtered at once: their rows fit the first level of cache.
const PIECE: usize = 512;

impl Listener {
    // Its past is all zeros.
    pub fn new() -> Listener
        ensures { signal_of result (replicate 2048 zero_f) (replicate 2048 zero_f) (replicate 2048 zero_f) ≡ unheard }
    {
        Listener {
            matched_filter: FirComplexSym::new(),
            past_index: 0,
        }
    }

    // One sample.
    pub fn listen(
        &mut self,
        re: &mut [f32; 2048],
        im: &mut [f32; 2048],
        abs: &mut [f32; 2048],
        input: ComplexSample,
    )
        ensures { signal_of self.new re.new im.new abs.new ≡ hear (signal_of self.old re.old im.old abs.old) input }
    {
        let out = self.matched_filter.sample(input);
        let at = self.past_index;
        history::store(re, at, &[out.re]);
        history::store(im, at, &[out.im]);
        self.past_index = history::store(abs, at, &[magnitude::magnitude(out.re, out.im)]);
    }

    // The samples of two rows of parts, as far as both go and at most 512, oldest first: filter, magnitudes and rings, each over
    // all of them.
    pub fn listen_all(
        &mut self,
        re: &mut [f32; 2048],
        im: &mut [f32; 2048],
        abs: &mut [f32; 2048],
        x: &[f32],
        y: &[f32],
    )
        ensures { signal_of self.new re.new im.new abs.new ≡ hear_all (signal_of self.old re.old im.old abs.old) (take 512 (samples_of x.now y.now)) }
    {
        let n = x.len().min(y.len()).min(PIECE);
        let mut out_re = [0.0f32; PIECE];
        let mut out_im = [0.0f32; PIECE];
        self.matched_filter.block(x, y, &mut out_re, &mut out_im);
        let mut sizes = [0.0f32; PIECE];
        magnitude::magnitudes(&out_re[..n], &out_im[..n], &mut sizes);
        let at = self.past_index;
        history::store(re, at, &out_re[..n]);
        history::store(im, at, &out_im[..n]);
        self.past_index = history::store(abs, at, &sizes[..n]);
    }
}
