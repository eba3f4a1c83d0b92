// The codebook that stage 3 searches: the offsets of its contours, and the range of offsets of each subframe.
#![tactic(auto)]

ghost use Rattle.std.specs.Prelude.{◌≡◌, ◌<◌, ◌≤◌};
ghost use Rattle.lists.specs.Fill.{tabulate};
ghost use Rattle.silk_tables.specs.Tables.{TableSettings, in_use, offset, range, range_low, range_high, range_count, first_lag};
ghost use Rattle.silk_tables.specs.SettingsLaws.{one_table_settings};

use crate::{
    PE_MAX_NB_SUBFR, PE_NB_CBKS_STAGE3_10MS, PE_NB_CBKS_STAGE3_MAX, SILK_CB_LAGS_STAGE3,
    SILK_CB_LAGS_STAGE3_10_MS, SILK_LAG_RANGE_STAGE3, SILK_LAG_RANGE_STAGE3_10_MS,
};

// The codebook of a frame of `nb` subframes, 2 or 4, of which `complexity`, 0 to 2, says how many contours are tried.
#[derive(Clone, Copy)]
pub struct Codebook {
    pub nb: usize,
    pub complexity: usize,
    pub ghost settings: { TableSettings nb complexity } by { one_table_settings nb complexity },
}

// A subframe's range of offsets: its low end, which the lowest offset in use meets, and its high end, which takes in four more than the highest.
#[derive(Clone, Copy)]
pub struct OffsetRange {
    pub low: i32,
    pub high: i32,
}

// A subframe is a plain index, with its bound at each method: a type for it would be made anew at each.
impl Codebook {
    // What each contour adds to the lag in subframe k; 0 where the book has no such contour. A lookup takes the whole table along, so a search over contours asks for
    // the row once.
    pub fn row(self, k: usize) -> [i8; PE_NB_CBKS_STAGE3_MAX]
        requires { k < self.nb }
        ensures { result ≡ tabulate (offset self.nb k) 34 }
    {
        if self.nb == PE_MAX_NB_SUBFR {
            return SILK_CB_LAGS_STAGE3[k];
        }
        let mut row = [0; PE_NB_CBKS_STAGE3_MAX];
        row[..PE_NB_CBKS_STAGE3_10MS].copy_from_slice(&SILK_CB_LAGS_STAGE3_10_MS[k]);
        row
    }

    // What contour j adds to the lag in subframe k. It looks up the one place: by `row`, a frame took 2 to 5% more instructions. `lag_cb_stage2` does the same in stage 2's tables: one
    // generic function for both lays the tables on the stack at each call, and a frame took 4 to 25% more.
    pub fn lag_cb(self, k: usize, j: usize) -> i32
        requires { (k < self.nb) × (j < in_use self.nb self.complexity) }
        ensures { result ≡ offset self.nb k j }
    {
        if self.nb == PE_MAX_NB_SUBFR {
            SILK_CB_LAGS_STAGE3[k][j] as i32
        } else {
            SILK_CB_LAGS_STAGE3_10_MS[k][j] as i32
        }
    }

    // The two ends of subframe k's range, as the table has them.
    fn ends(self, k: usize) -> [i8; 2]
        requires { k < self.nb }
        ensures { result ≡ range self.nb self.complexity k }
    {
        if self.nb == PE_MAX_NB_SUBFR {
            SILK_LAG_RANGE_STAGE3[self.complexity][k]
        } else {
            SILK_LAG_RANGE_STAGE3_10_MS[k]
        }
    }

    // Subframe k's range of offsets.
    #[tactic(auto, unfolding(crate::specs::Tables::range_low, crate::specs::Tables::range_high))]
    pub fn lag_range(self, k: usize) -> OffsetRange
        requires { k < self.nb }
        ensures low { result.low ≡ range_low self.nb self.complexity k }
        ensures high { result.high ≡ range_high self.nb self.complexity k }
    {
        let [low, high] = self.ends(k);
        OffsetRange {
            low: i32::from(low),
            high: i32::from(high),
        }
    }

    // How many lags subframe k's range has.
    pub fn lag_count(self, k: usize) -> usize
        requires { k < self.nb }
        ensures { result ≡ range_count self.nb self.complexity k }
    {
        let range = self.lag_range(k);
        crate::unsigned_diff(range.high, range.low) + 1
    }

    // The first lag of subframe k's range, where the first lag tried is `start_lag`.
    pub fn lag_first(self, k: usize, start_lag: usize) -> usize
        requires { (k < self.nb) × ((24 ≤ start_lag) × (start_lag ≤ 288)) }
        ensures { result ≡ first_lag self.nb self.complexity k start_lag }
    {
        (start_lag as i32 + self.lag_range(k).low) as usize
    }
}
