// The receiver's block call over all samples, with each slot taken at once.
ghost use Rattle.std.specs.Prelude.{◌/◌, ◌<◌, length};

use dsp_types::SampleCount;
use history::History;
use receiver::{State, Stop};
use slot_receiver::Mode;

// The samples from this one on, up to the end of its block of 1,020.
fn rest_of_block(samples: &[f32], at: usize) -> &[f32]
    requires { at < length samples.now / 2 }
{
    let from = 2 * at;
    let to = 2 * ((at / 1020 + 1) * 1020).min(samples.len() / 2);
    &samples[from..to]
}

// Takes the slot that waits, and gives its number.
fn take_slot(state: &mut State) -> Option<u32> {
    let mut slot = [0u8; 510];
    let mut subslot1 = [0u8; 254];
    let mut subslot2 = [0u8; 254];
    let taken = state.take_demodulated_slot(&mut slot, &mut subslot1, &mut subslot2);
    Some(taken.ok()?.time.0)
}

// A new searching receiver over all samples, re and im in turn, fed in blocks of 1,020 with the counters from 0 on. Each slot
// that is handed over is taken at once, and its number written, as far as there is room. Ends at a refused sample. Returns how
// many slots there were, with those that had no room.
#[unsafe(no_mangle)]
pub extern "C" fn bench_receive(samples: &[f32], numbers: &mut [u32]) -> usize {
    let total = samples.len() / 2;
    let mut past = History::new();
    let mut state = State::new(Mode::DlUnsynchronized);
    let mut at: usize = 0;
    let mut count: usize = 0;
    while at < total {
        let block = rest_of_block(samples, at);
        let fed = state.feed(
            &mut past.re,
            &mut past.im,
            &mut past.abs,
            block,
            SampleCount(at as i64),
        );
        // A sample at least was taken, but where one is refused. That is not proved here.
        at = at.saturating_add(fed.taken.max(1));
        match fed.stop {
            Stop::End => {}
            Stop::Slot => {
                if let (Some(number), Some(place)) = (
                    take_slot(&mut state),
                    numbers.get_mut(count),
                ) {
                    *place = number;
                }
                count = count.wrapping_add(1);
            }
            Stop::Refused(_) => break,
        }
    }
    count
}
