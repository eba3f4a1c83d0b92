// The lags that stage 1 kept, and which lags at 8 kHz they list and measure.
#![tactic(auto)]

ghost use Rattle.std.specs.Prelude.{◌≡◌, ℕ, ◌+◌, ◌≤◌};
ghost use Rattle.lists.specs.Fill.{tabulate};
ghost use Rattle.stage2_correlations.specs.Marks.{near, marked, listed, measured, Kept};

use crate::MIN_LAG_8KHZ;
use silk_tables::MAX_LAG_8KHZ;
use std::array;

// The lags at 4 kHz that stage 1 kept: at most 8, each from 8 to 72.
#[derive(Clone, Copy)]
pub struct KeptLags<'a> {
    pub lags: &'a [usize],
    pub ghost kept: { Kept lags.now },
}

// A lag is a plain number, with its bound at each method: a type for it would be made anew at each turn of the search.
impl KeptLags<'_> {
    // Whether d lies from v - below to v + above for the double v of a kept lag.
    fn is_near(self, d: usize, below: usize, above: usize) -> bool
        requires { (d ≤ 145) × ((below ≤ 2) × (above ≤ 3)) }
        ensures { result ≡ near self.entry.lags.now below above d }
    {
        self.lags
            .iter()
            .any(|lag| 2 * *lag <= d + below && d <= 2 * *lag + above)
    }

    // The same, within the ends low and high.
    #[tactic(auto, unfolding(crate::specs::Marks::marked))]
    fn is_marked(self, d: usize, below: usize, above: usize, low: usize, high: usize) -> bool
        requires { (d ≤ 145) × ((below ≤ 2) × (above ≤ 3)) }
        ensures { result ≡ marked self.entry.lags.now below above low high d }
    {
        (low..=high).contains(&d) && self.is_near(d, below, above)
    }

    // Whether stage 2 can choose the lag d: it lies within 1 of the double of a kept lag, and within 16 to 143.
    #[tactic(auto, unfolding(crate::specs::Marks::listed))]
    pub fn is_listed(self, d: usize) -> bool
        requires { d ≤ 145 }
        ensures { result ≡ listed self.entry.lags.now d }
    {
        self.is_marked(d, 1, 1, MIN_LAG_8KHZ, MAX_LAG_8KHZ)
    }

    // Whether the lag d is measured: it lies from 2 below to 3 above the double of a kept lag, and within 14 to 144.
    #[tactic(auto, unfolding(crate::specs::Marks::measured))]
    fn is_measured(self, d: usize) -> bool
        requires { d ≤ 145 }
        ensures { result ≡ measured self.entry.lags.now d }
    {
        self.is_marked(d, 2, 3, MIN_LAG_8KHZ - 2, MAX_LAG_8KHZ + 1)
    }

    // Which of the lags 14 to 145 are measured. By the lags as numbers, since each is asked for by its number.
    pub fn measured_lags(self) -> [bool; 132]
        ensures { result ≡ tabulate (λ (i : ℕ). measured self.entry.lags.now (14 + i)) 132 }
    {
        array::from_fn(|i| self.is_measured(14 + i))
    }
}
