// Stage 2 of the pitch analyser: the lag at 8 kHz with the best biased score among those that pass.
// The functions are our cut of the source: `silk_pitch_analysis_core` (pitch_analysis.rs) does all this in its lines 333 to 502, the measurements (`stage2_correlations`) up
// to 392. The macros and tables are the source's, and so are the names of constants and of most variables.
#![tactic(auto)]

ghost use Rattle.std.specs.Prelude.{◌≡◌, true, ◌≤◌, ◌<◌, pos, nat_abs, ◌≤ℤ◌};
ghost use Rattle.answers.specs.Answer.{answer_numbers};
ghost use Rattle.pitch_settings.specs.Settings.{subframes_known};
ghost use Rattle.silk_tables.specs.Tables.{entries2};
ghost use Rattle.stage2.specs.Scores.{contour_sum, prev_8khz, distance, prev_bias, biased2};
ghost use Rattle.stage2.specs.Stage2.{answer_of, stage2, stage2_numbers, stage2_verdict, stage2_values, Handed2};
ghost use Rattle.stage2.specs.Search.{at2, SixteenBits, along, top_of, sum_of, considered, lag_search, search_in, best_with, best_answer, BestOfAll};

use answers::NoPitch;
use pitch_settings::Settings;
use silk_macros::{
    silk_div32, silk_div32_16, silk_lin2log, silk_lshift, silk_mul, silk_rshift, silk_smulbb,
};
use silk_tables::{lag_cb_stage2, nb_cbk_search_stage2};
use stage2_correlations::{KeptLags, subframe_row};

// The winner's lag at 8 kHz, its contour and its correlation at Q15.
#[derive(Clone, Copy)]
pub struct Chosen {
    pub lag: usize,
    pub contour: usize,
    pub correlation: i32,
}

// A lag's best contour and the sum along it.
#[derive(Drop)]
pub struct Along {
    pub cc: i32,
    pub contour: usize,
}

// The best passing lag so far, its score, sum and contour.
#[derive(Clone, Copy)]
pub struct BestLag {
    pub top: i32,
    pub cc: i32,
    pub lag: usize,
    pub contour: usize,
}

// The lag and the correlation of the frame before.
// A lag that is not positive says that there was none: any number can be handed in, as in the source.
#[derive(Clone, Copy)]
pub struct Previous {
    pub lag: i32,
    pub correlation: i32,
}

// What the search goes by besides the correlations and the kept lags: how many subframes there are and how many contours are tried, what a lag's sum has to be above, and the
// previous lag at 8 kHz with its correlation.
#[derive(Clone, Copy)]
pub struct LagSearch {
    pub nb: usize,
    pub contours: usize,
    pub thres: i32,
    pub prev: Previous,
}

// The previous lag at 8 kHz.
// The rate stays a number: lags and lengths are multiples of it.
fn previous_8khz(fs_khz: usize, prev_lag: i32) -> i32
    ensures { result ≡ prev_8khz fs_khz prev_lag }
{
    if prev_lag > 0 {
        if fs_khz == 12 {
            silk_div32_16(prev_lag << 1, 3)
        } else if fs_khz == 16 {
            prev_lag >> 1
        } else {
            prev_lag
        }
    } else {
        prev_lag
    }
}

// The square of the distance of two logarithms.
fn distance_q7(lag_log2_q7: i32, prev_lag_log2_q7: i32) -> i32
    requires { (nat_abs lag_log2_q7 ≤ 4096) × (nat_abs prev_lag_log2_q7 ≤ 4096) }
    ensures { result ≡ distance lag_log2_q7 prev_lag_log2_q7 }
{
    let delta = lag_log2_q7 - prev_lag_log2_q7;
    silk_rshift(silk_smulbb(delta, delta), 7)
}

// What a lag is marked down by for its distance from the previous lag.
// Any count up to 4, here and below, and any rate: the steps are defined for each.
fn prev_lag_bias(nb_subfr: usize, prev_corr: i32, delta_lag_log2_sqr_q7: i32) -> i32
    requires { (nb_subfr ≤ 4) × ((pos 0 ≤ℤ delta_lag_log2_sqr_q7) × (delta_lag_log2_sqr_q7 ≤ℤ pos 8388608)) }
    ensures { result ≡ prev_bias nb_subfr prev_corr delta_lag_log2_sqr_q7 }
{
    let prev_lag_bias_q13 = silk_rshift(silk_smulbb((nb_subfr * 1638) as i32, prev_corr), 15);
    silk_div32(
        silk_mul(prev_lag_bias_q13, delta_lag_log2_sqr_q7),
        delta_lag_log2_sqr_q7 + 64,
    )
}

// A lag's sum, marked down for a long lag and for its distance from the previous one.
fn biased_score(cc: i32, nb_subfr: usize, d: usize, prev: Previous) -> i32
    requires { (nat_abs cc ≤ 131072) × ((nb_subfr ≤ 4) × (d ≤ 143)) }
    ensures { result ≡ biased2 cc nb_subfr d prev.lag prev.correlation }
{
    let lag_log2_q7 = silk_lin2log(d as i32);
    let cc_max_new_b = cc - silk_rshift(silk_smulbb((nb_subfr * 410) as i32, lag_log2_q7), 7);
    if prev.lag > 0 {
        let prev_lag_log2_q7 = silk_lin2log(prev.lag);
        let delta_lag_log2_sqr_q7 = distance_q7(lag_log2_q7, prev_lag_log2_q7);
        cc_max_new_b - prev_lag_bias(nb_subfr, prev.correlation, delta_lag_log2_sqr_q7)
    } else {
        cc_max_new_b
    }
}

// The score that the next lag has to be above.
fn top_of(best: Option<BestLag>) -> i32
    ensures { result ≡ top_of best }
{
    match best {
        Some(b) => b.top,
        None => i32::MIN,
    }
}

// One lag more.
fn consider(
    best: Option<BestLag>,
    d: usize,
    found: Along,
    score: i32,
    thres: i32,
) -> Option<BestLag>
    ensures { result ≡ considered best d found.cc found.contour score thres }
{
    let top = top_of(best);
    if found.cc > thres {
        if score > top {
            return Some(BestLag {
                top: score,
                cc: found.cc,
                lag: d,
                contour: found.contour,
            });
        }
    }
    best
}

// The search: the correlations of each subframe at the lags 14 to 145, the lags that stage 1 kept, and what the search goes by besides. At least one contour is tried, and no
// more than the codebook has.
#[derive(Clone, Copy)]
struct Search8khz<'c, 'k> {
    pub c_8khz: &'c [[i16; 132]; 4],
    pub kept: KeptLags<'k>,
    pub by: LagSearch,
    pub ghost small: { SixteenBits (at2 c_8khz.now) by.nb },
    pub ghost subframes: { subframes_known by.nb ≡ true },
    pub ghost at_most: { by.nb ≤ 4 },
    pub ghost some_tried: { 0 < by.contours },
    pub ghost in_codebook: { by.contours ≤ entries2 by.nb },
}

// A lag is a plain number, with its bounds at each method: a type for it would be made anew at each turn of the search.
impl Search8khz<'_, '_> {
    // The correlations along contour j of the lag d, added up over the subframes. By the subframe as a number, since the codebook is asked for it too.
    fn contour_sum(&self, d: usize, j: usize) -> i32
        requires { (16 ≤ d) × ((d ≤ 143) × (j < entries2 self.now.by.nb)) }
        ensures { result ≡ contour_sum (at2 self.now.c_8khz.now) self.now.by.nb d j }
    {
        let mut cc: i32 = 0;
        for i in 0..self.by.nb {
            let d_subfr = (d as i32 + lag_cb_stage2(self.by.nb, i, j)) as usize;
            cc += self.c_8khz[i][d_subfr - 14] as i32;
        }
        cc
    }

    // The first of the contours with the greatest sum.
    fn best_contour(&self, d: usize) -> Along
        requires { (16 ≤ d) × (d ≤ 143) }
        ensures { result ≡ along (at2 self.now.c_8khz.now) self.now.by.nb self.now.by.contours d }
    {
        let mut cc0_max_new = self.contour_sum(d, 0);
        let mut cb_i_max_new: usize = 0;
        for i in 1..self.by.contours {
            let cc = self.contour_sum(d, i);
            if cc > cc0_max_new {
                cc0_max_new = cc;
                cb_i_max_new = i;
            }
        }
        Along {
            cc: cc0_max_new,
            contour: cb_i_max_new,
        }
    }

    // The best lag so far, with the lag d, where it is listed.
    fn try_lag(&self, best: Option<BestLag>, d: usize) -> Option<BestLag>
        requires { (16 ≤ d) × (d ≤ 143) }
        ensures { result ≡ best_with (search_in self.now.c_8khz.now self.now.kept.lags.now self.now.by) d best }
    {
        if self.kept.is_listed(d) {
            let found = self.best_contour(d);
            let score = biased_score(found.cc, self.by.nb, d, self.by.prev);
            consider(best, d, found, score, self.by.thres)
        } else {
            best
        }
    }

    // The best of the lags 16 to 143, tried rising.
    fn pick_lag(&self) -> Option<BestLag>
        ensures { BestOfAll (search_in self.now.c_8khz.now self.now.kept.lags.now self.now.by) result }
    {
        let mut best = None;
        for d in 16..144 {
            best = self.try_lag(best, d);
        }
        best
    }
}

// The answer of the search.
fn answer(best: Option<BestLag>, nb_subfr: usize) -> Result<Chosen, NoPitch>
    requires { (nat_abs (sum_of best) ≤ 131072) × ((2 ≤ nb_subfr) × (nb_subfr ≤ 4)) }
    ensures { answer_of result ≡ best_answer nb_subfr best }
{
    let won = best.ok_or(NoPitch::Unvoiced)?;
    Ok(Chosen {
        lag: won.lag,
        contour: won.contour,
        correlation: silk_lshift(silk_div32_16(won.cc, nb_subfr as i32), 2),
    })
}

// What the search goes by, from the settings and the previous lag and correlation.
fn lag_search(s: Settings, prev: Previous) -> LagSearch
    requires { s.nb ≤ 4 }
    ensures { result ≡ lag_search s.rate s.nb s.complexity s.thres2 prev.lag prev.correlation }
{
    LagSearch {
        nb: s.nb,
        contours: nb_cbk_search_stage2(s.rate, s.nb, s.complexity),
        thres: silk_smulbb(s.nb as i32, s.thres2),
        prev: Previous {
            lag: previous_8khz(s.rate, prev.lag),
            correlation: prev.correlation,
        },
    }
}

// Stage 2: the winner with its contour and correlation, or that the frame is unvoiced, or a zero divisor.
pub fn search_stage2(
    frame_8khz: &[i16],
    kept: &[usize],
    s: Settings,
    prev: Previous,
) -> Result<Chosen, NoPitch>
    requires { Handed2 frame_8khz.now kept.now s.rate s.nb s.complexity }
    ensures value { answer_of result ≡ stage2 frame_8khz.now kept.now s.rate s.nb s.complexity s.thres2 prev.lag prev.correlation }
    ensures numbers { stage2_numbers (answer_of result) ≡ answer_numbers (stage2_verdict frame_8khz.now kept.now s.rate s.nb s.complexity s.thres2 prev.lag prev.correlation) (stage2_values frame_8khz.now kept.now s.rate s.nb s.complexity s.thres2 prev.lag prev.correlation) }
{
    let kept = KeptLags { lags: kept };
    let marks = kept.measured_lags();
    let mut c_8khz = [[0i16; 132]; 4];
    let nb_subfr = s.nb;
    // k is the subframe.
    for k in 0..nb_subfr {
        // Not by `map_err`: what its closure answers the caller's proof does not know.
        let Ok(row) = subframe_row(frame_8khz, k, &marks) else {
            return Err(NoPitch::ZeroDivisor);
        };
        c_8khz[k] = row;
    }
    let search = Search8khz {
        c_8khz: &c_8khz,
        kept,
        by: lag_search(s, prev),
    };
    answer(search.pick_lag(), nb_subfr)
}
