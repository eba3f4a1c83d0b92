// Where stage 3 searches.
#![tactic(auto)]

ghost use Rattle.std.specs.Prelude.{◌≤◌};
ghost use Rattle.silk_tables.specs.Tables.{least_lag, greatest_lag};

use silk_tables::Codebook;

// Where the search looks: the rate in kHz, 12 to 16, the codebook, and the winner of stage 2 scaled to the rate, which is one of the lags that may be tried.
#[derive(Clone, Copy)]
pub struct PairSearch {
    pub fs: usize,
    pub codebook: Codebook,
    pub lag: usize,
    pub ghost rate_low: { 12 ≤ fs },
    pub ghost rate_high: { fs ≤ 16 },
    pub ghost lag_low: { least_lag fs ≤ lag },
    pub ghost lag_high: { lag ≤ greatest_lag fs },
}
