// A block of samples in one call, for gateways: what the calls one by one would send.
ghost use Rattle.std.specs.Prelude.{◌≡◌, cond, ◌+◌, ◌*◌, ◌/◌, ◌≤◌, ◌<◌, ◌^◌, eqb, length, take};
ghost use Rattle.std.specs.Option.{option_copied};
ghost use Rattle.dsp_types.specs.Answers.{number_of, end_number};
ghost use Rattle.dsp_types.specs.Refusals.{bad_counter, need_more_data, last_counter, counters};
ghost use Rattle.fir.specs.Fir.{samples_of, start_with, re_of, im_of};
ghost use Rattle.modulator.specs.Sender.{sender_of};
ghost use Rattle.modulator.specs.Blocks.{due_after, block_call, parts_of, Wrote, slot_due, inputs_of, phases_of, fed_block, left_of};

use crate::sender::Modulator;
use dsp_types::{COUNTERS, Refusal, SampleCount, TdmaTime};
use mapper::{DqpskMapper, SlotToSend, due_now, start_of};

#[derive(Clone, Copy)]
pub struct Sent {
    // How many samples were written.
    pub count: usize,
    // Why the next sample was refused, if it was.
    pub refusal: Option<Refusal>,
}

// Samples that are sent in one go, none of them refused.
#[derive(Clone, Copy)]
struct Stretch<'a> {
    slot: SlotToSend<'a>,
    // The first sample's.
    counter: u64,
    count: usize,
    ghost in_count: { counter + count ≤ counters },
}

impl Stretch<'_> {
    // The refusal of the sample behind them, where the slot or the counter ends with them.
    fn end_refusal(self) -> Refusal
        ensures { number_of result ≡ cond (eqb (self.entry.counter + self.entry.count) counters) bad_counter need_more_data }
    {
        if self.counter + self.count as u64 == COUNTERS {
            Refusal::BadCounter
        } else {
            Refusal::NeedMoreData
        }
    }
}

// How many samples there are before the counter ends, or the slot that starts there.
#[tactic(auto, unfolding(crate::specs::Blocks::left_of))]
fn left(counter: u64, start: u64) -> usize
    requires { (counter ≤ last_counter) × (start < 2 ^ 42) }
    ensures { result ≡ left_of counter start }
{
    let counted = COUNTERS - counter;
    let placed = (start + 1020).saturating_sub(counter + 16);
    counted.min(placed) as usize
}

// What is fed to the filter for a stretch of samples. The phase steps with them.
// By index: nothing is known of two rows that are written through one zip.
fn fill(re: &mut [f32], im: &mut [f32], mapper: &mut DqpskMapper, stretch: Stretch)
    requires { (stretch.count ≤ length re.old) × (stretch.count ≤ length im.old) }
    ensures phase { let s = stretch.entry in mapper.new.phase ≡ phases_of (slot_due s.counter s.slot) s.count 0 mapper.old.phase }
    ensures re { let s = stretch.entry in take s.count re.new ≡ re_of (inputs_of (slot_due s.counter s.slot) s.count 0 mapper.old.phase) }
    ensures im { let s = stretch.entry in take s.count im.new ≡ im_of (inputs_of (slot_due s.counter s.slot) s.count 0 mapper.old.phase) }
{
    // A phase of its own for the loop: stepped behind the reference, a block takes a tenth longer.
    let mut next = *mapper;
    for n in 0..stretch.count {
        let delayed = stretch.counter + n as u64 + 16;
        let x = next.symbol(stretch.slot.due_at(delayed));
        re[n] = x.re;
        im[n] = x.im;
    }
    *mapper = next;
}

// Writes samples to the start of a buffer, re and im in turn. By index: of what `chunks_exact_mut` lends, nothing is known after the
// loop.
fn interleave(re: &[f32], im: &[f32], out: &mut [f32])
    requires { (length re.now ≡ length im.now) × (2 * length re.now ≤ length out.old) }
    ensures { out.new ≡ start_with (parts_of (samples_of re.now im.now)) out.old }
{
    for (n, x) in re.iter().enumerate() {
        out[2 * n] = *x;
        out[2 * n + 1] = im[n];
    }
}

impl Modulator {
    // Sends a stretch of at most 256 samples.
    fn piece(&mut self, mapper: &mut DqpskMapper, stretch: Stretch, out: &mut [f32])
        requires { (stretch.count ≤ 256) × (2 * stretch.count ≤ length out.old) }
        ensures { let s = stretch.entry in Wrote (fed_block (slot_due s.counter s.slot) s.count 0 (sender_of self.old mapper.old))
            s.count 0 (sender_of self.new mapper.new) out.old out.new }
    {
        let count = stretch.count;
        let mut re = [0.0f32; 256];
        let mut im = [0.0f32; 256];
        fill(&mut re, &mut im, mapper, stretch);
        let mut out_re = [0.0f32; 256];
        let mut out_im = [0.0f32; 256];
        self.filter
            .block(&re[..count], &im[..count], &mut out_re, &mut out_im);
        interleave(&out_re[..count], &out_im[..count], out);
    }

    // Sends a stretch of samples, 256 at a time.
    fn send(&mut self, mapper: &mut DqpskMapper, stretch: Stretch, out: &mut [f32])
        requires { 2 * stretch.count ≤ length out.old }
        ensures wrote { let s = stretch.entry in Wrote (fed_block (slot_due s.counter s.slot) s.count 0 (sender_of self.old mapper.old))
            s.count 0 (sender_of self.new mapper.new) out.old out.new }
        ensures kept { stretch.entry.count ≡ 0 → (self.new ≡ self.old) × (mapper.new ≡ mapper.old) }
    {
        // By index: of what `chunks_mut` lends, nothing is known after the loop.
        for done in (0..stretch.count).step_by(256) {
            let piece = Stretch {
                slot: stretch.slot,
                counter: stretch.counter + done as u64,
                count: (stretch.count - done).min(256),
            };
            self.piece(mapper, piece, &mut out[2 * done..]);
        }
    }

    // As many samples as the buffer has room for, re and im in turn, or up to the first that is refused. What is behind
    // them in the buffer is left as it was. The first is refused whatever the room is.
    #[tactic(auto, using(crate::proofs::Blocks::small_sent, crate::proofs::Blocks::left_sent))]
    pub fn block(
        &mut self,
        mapper: &mut DqpskMapper,
        sample_counter: SampleCount,
        slot: TdmaTime,
        bits: Option<&[u8]>,
        out: &mut [f32],
    ) -> Sent
        ensures block { Wrote (block_call (due_after sample_counter.0 slot.0 (option_copied bits.entry)) (length out.old / 2) (sender_of self.old mapper.old))
            result.count (end_number result.refusal) (sender_of self.new mapper.new) out.old out.new }
        ensures kept { result.count ≡ 0 → (self.new ≡ self.old) × (mapper.new ≡ mapper.old) }
    {
        if let Err(refusal) = due_now(sample_counter, slot, bits) {
            return Sent {
                count: 0,
                refusal: Some(refusal),
            };
        }
        let room = out.len() / 2;
        let counter = dsp_types::unsigned(sample_counter.0);
        let start = start_of(slot);
        let left = left(counter, start);
        let stretch = Stretch {
            slot: SlotToSend { start, bits },
            counter,
            count: room.min(left),
        };
        self.send(mapper, stretch, out);
        let refusal = if room <= left {
            None
        } else {
            Some(stretch.end_refusal())
        };
        Sent {
            count: stretch.count,
            refusal,
        }
    }
}
