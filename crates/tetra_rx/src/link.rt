// What one link has come to.
use crate::report;
use slot_text::Link;
use streams::Host;
use text::Text;

// Refused samples that are less than a slot apart are told together.
const SLOT: u64 = 1020;

// Refused samples that are not told yet: the counters of the first and the last, and how many they are.
#[derive(Clone, Copy)]
struct Untold {
    first: u64,
    last: u64,
    count: u64,
}

#[derive(Clone, Copy)]
pub struct LinkTally {
    link: Link,
    slots: u64,
    refused: u64,
    untold: Option<Untold>,
}

impl LinkTally {
    pub(crate) fn new(link: Link) -> LinkTally {
        LinkTally {
            link,
            slots: 0,
            refused: 0,
            untold: None,
        }
    }

    // A slot more.
    pub(crate) fn count_slot(&mut self) {
        self.slots = self.slots.wrapping_add(1);
    }

    // The sample of that counter was refused, and a zero heard in its place.
    pub(crate) fn refuse(&mut self, counter: u64) {
        let mut untold = self.untold.unwrap_or(Untold {
            first: counter,
            last: counter,
            count: 0,
        });
        untold.last = counter;
        untold.count = untold.count.wrapping_add(1);
        self.untold = Some(untold);
        self.refused = self.refused.wrapping_add(1);
    }

    // Tells the refused samples.
    pub(crate) fn tell<H: Host>(&mut self, rt: &H, is_progress: bool) {
        if let Some(untold) = self.untold.take() {
            let begun = report::begun(self.link, is_progress);
            let count = report::with_count(begun, untold.count, b" sample");
            let from = report::with_number(count, b" refused from ", untold.first);
            let to = report::with_number(from, b" to ", untold.last);
            report::tell(rt, to, b", heard as zeros\n");
        }
    }

    // Tells them where none was refused for a slot before that counter.
    pub(crate) fn tell_by<H: Host>(&mut self, rt: &H, counter: u64, is_progress: bool) {
        if let Some(untold) = self.untold
            && SLOT <= counter.wrapping_sub(untold.last)
        {
            self.tell(rt, is_progress);
        }
    }

    pub(crate) fn with_slots(&self, text: Text) -> Text {
        report::with_count(text, self.slots, b" slot")
    }

    // With the counts behind it.
    pub(crate) fn summary(&self, text: Text) -> Text {
        let slots = self.with_slots(text).append(b", ");
        report::with_count(slots, self.refused, b" sample").append(b" refused")
    }
}
