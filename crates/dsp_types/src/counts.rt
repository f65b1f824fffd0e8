// Sums, differences and tests of sample counts. Where 64 bits do not hold a sum, it is the nearest number that they hold.
ghost use Rattle.std.specs.Prelude.{◌≡◌, ◌+ℤ◌, ◌-ℤ◌};
ghost use Rattle.dsp_types.specs.Refusals.{out_of_count};
ghost use Rattle.dsp_types.specs.Times.{fitted};

use crate::{LAST_COUNTER, SampleCount};

impl SampleCount {
    // n samples later.
    #[tactic(auto, unfolding(crate::specs::Times::fitted))]
    pub fn plus(self, n: i64) -> SampleCount
        ensures { result.0 ≡ fitted (self.0 +ℤ n) }
    {
        SampleCount(self.0.saturating_add(n))
    }

    // n samples earlier.
    #[tactic(auto, unfolding(crate::specs::Times::fitted))]
    pub fn minus(self, n: i64) -> SampleCount
        ensures { result.0 ≡ fitted (self.0 -ℤ n) }
    {
        SampleCount(self.0.saturating_sub(n))
    }

    // The samples from an earlier count to this one.
    #[tactic(auto, unfolding(crate::specs::Times::fitted))]
    pub fn since(self, earlier: SampleCount) -> i64
        ensures { result ≡ fitted (self.0 -ℤ earlier.0) }
    {
        self.0.saturating_sub(earlier.0)
    }

    // Whether it is no sample's counter: refusal 2.
    #[tactic(auto, unfolding(crate::specs::Refusals::out_of_count))]
    pub fn is_out_of_count(self) -> bool
        ensures { result ≡ out_of_count self.0 }
    {
        !(SampleCount(0)..=SampleCount(LAST_COUNTER)).contains(&self)
    }
}
