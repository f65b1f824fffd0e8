// Why a call is refused (01, "Refusals"), each under its number, of which the smallest that holds is given; and the limits that they
// judge by.
ghost use Rattle.std.specs.Prelude.{◌≡◌};
ghost use Rattle.dsp_types.specs.Answers.{number_of, answer_number};

#[derive(Clone, Copy, Debug, PartialEq, Eq)]
pub enum Refusal {
    // A sample part is NaN, infinite, or beyond 1,024 either side of zero.
    BadSample = 1,
    // A sample counter is below 0 or above the last.
    BadCounter = 2,
    // A slice has the wrong length.
    BadLength = 3,
    // A bit byte is neither 0 nor 1.
    BadBit = 4,
    // A normal burst is wanted with a training sequence other than 1 or 2.
    BadTraining = 5,
    // A slot number to send is above the last.
    BadSlot = 6,
    // A slot kind given by the logger is above 2.
    BadKind = 7,
    // The receiver's counter is below the one after its last accepted sample.
    PastCounter = 10,
    // No slot waits to be taken.
    NoSlot = 11,
    // The sender needs the next slot.
    NeedMoreData = 12,
    // The receiver told to follow finds its own slot timing.
    NotFollowing = 13,
}

impl Refusal {
    pub fn number(self) -> u32
        ensures { result ≡ number_of self }
    {
        self as u32
    }
}

// 0 for a call that was accepted, else the refusal's number: what C is told.
pub fn answer_number<T>(answer: &Result<T, Refusal>) -> u32
    ensures { result ≡ answer_number answer.now }
{
    match answer {
        Ok(_) => 0,
        Err(refusal) => refusal.number(),
    }
}

// The last sample counter that is not refused, and how many counters there are.
pub const LAST_COUNTER: i64 = 137_438_953_471;

pub const COUNTERS: u64 = 137_438_953_472;

// How many slot numbers there are, and the last.
pub const SLOTS: u32 = 283_115_520;

pub const LAST_SLOT: u32 = SLOTS - 1;
