// Windows of the past: a whole slot's, and those of its two halves.
ghost use Rattle.std.specs.Prelude.{◌≡◌, List, ◌<◌, ◌≤◌};
ghost use Rattle.dsp_types.specs.declared.ComplexSample.{ComplexSample};
ghost use Rattle.listener.specs.View.{start_of, symbols_of, signal_in, Reads};

// A slot's window, and those of its halves.
#[derive(Clone, Copy, Debug, PartialEq, Eq)]
pub enum Window {
    Slot,
    FirstHalf,
    SecondHalf,
}

// A window's symbol timing, and its bits with zeros behind them.
#[derive(Clone, Copy)]
pub struct Reading {
    pub timing: f32,
    pub bits: [u8; 510],
}

impl Window {
    // How many samples ago it starts.
    fn start(self) -> usize
        ensures { result ≡ start_of self }
    {
        match self {
            Window::Slot | Window::FirstHalf => 1024,
            Window::SecondHalf => 514,
        }
    }

    // How many symbols it has.
    fn symbols(self) -> usize
        ensures { result ≡ symbols_of self }
    {
        match self {
            Window::Slot => 256,
            Window::FirstHalf | Window::SecondHalf => 128,
        }
    }
}

// The past as it is read: rings of samples and of their magnitudes, whose newest elements stand at the index. C lends them one
// by one.
#[derive(Clone, Copy)]
pub struct Past<'a> {
    pub re: &'a [f32; 2048],
    pub im: &'a [f32; 2048],
    pub abs: &'a [f32; 2048],
    pub index: usize,
}

impl Past<'_> {
    pub fn read_window(self, window: Window) -> Reading
        ensures { (inputs : List ComplexSample) → Reads (signal_in inputs self.entry) (start_of window) (symbols_of window) result }
    {
        let Past { re, im, abs, index } = self;
        let start = window.start();
        let symbols = window.symbols();
        let timing = timing::estimate_timing(abs, index, start, symbols);
        let whole = timing::whole(timing);
        let fract = timing::fract(timing);
        Reading {
            timing,
            bits: slot_bits::slot_bits(re, im, index, start, whole, fract, symbols),
        }
    }
}
