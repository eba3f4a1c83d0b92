// Stage 3 of the pitch analyser: the lag near stage 2's winner and the contour with the highest score. The source has no function for it: this is the part of
// silk_pitch_analysis_core (pitch_analysis.rs) from `start_lag` to the end of the loops over lags and contours. The names of variables are the source's, those of functions
// and types ours.
#![tactic(auto)]

ghost use Rattle.std.specs.Prelude.{◌≡◌, ℕ, ◌+◌, ◌-◌, ◌*◌, ◌<◌, ◌≤◌, min, max, pos, length, ◌≤ℤ◌};
ghost use Rattle.answers.specs.Answer.{answer_numbers};
ghost use Rattle.silk_tables.specs.Tables.{in_use, greatest_lag};
ghost use Rattle.stage3.specs.Pick.{answer_of, first_tried, last_tried, bias_of, biased, reached, pick};
ghost use Rattle.stage3.specs.Stage3.{sat_sum, energy_target, stage3, found_numbers, stage3_verdict, stage3_values, Handed};
ghost use Rattle.stage3.specs.Search.{with_pair, at3, array_choice, BestOfFirst, AfterFirst};

mod pair_search;

pub use pair_search::PairSearch;
use pitch_settings::Settings;
use silk_macros::{silk_add_sat32, silk_div32_16, silk_div32_varq, silk_smulwb};
use silk_sigproc::energy_from;
use silk_tables::Codebook;
use stage3_arrays::{FrameAtLag, silk_p_ana_calc_corr_st3, silk_p_ana_calc_energy_st3};
use zint::wrapping_add_i32;

// The lag and the contour that are chosen.
#[derive(Clone, Copy)]
pub struct LagContour {
    pub lag: usize,
    pub contour: usize,
}

// The best pair so far and its score.
#[derive(Clone, Copy)]
pub struct BestSoFar {
    pub top: i32,
    pub lag: usize,
    pub contour: usize,
}

impl PairSearch {
    // The first lag tried.
    fn start_lag(self) -> usize
        ensures { result ≡ first_tried self.fs self.lag }
    {
        usize::max(self.lag - 2, silk_tables::least_lag(self.fs))
    }

    // The last lag tried.
    fn end_lag(self) -> usize
        ensures { result ≡ last_tried self.fs self.lag }
    {
        usize::min(self.lag + 2, silk_tables::greatest_lag(self.fs))
    }

    // Whether the lag d, moved by contour j's offset in the first subframe, is at most the greatest lag.
    fn in_reach(self, d: usize, j: usize) -> bool
        requires { (d ≤ greatest_lag self.fs) × (j < in_use self.codebook.nb self.codebook.complexity) }
        ensures { result ≡ reached self.fs self.codebook.nb d j }
    {
        d as i32 + self.codebook.lag_cb(0, j) <= silk_tables::greatest_lag(self.fs) as i32
    }

    // One pair more, and none where its quotient is taken and has divisor zero. Its reach is looked at last: few pairs score higher than the best so far.
    fn consider(
        self,
        best: BestSoFar,
        cross_corr: i32,
        energy: i32,
        contour_bias_q15: i32,
        d: usize,
        j: usize,
    ) -> Option<BestSoFar>
        requires pos_bound { (pos 0 ≤ℤ contour_bias_q15) × (contour_bias_q15 ≤ℤ pos 68) }
        requires tried { d ≤ greatest_lag self.fs }
        requires used { j < in_use self.codebook.nb self.codebook.complexity }
        ensures { result ≡ with_pair best cross_corr energy contour_bias_q15 d j (reached self.fs self.codebook.nb d j) }
    {
        if cross_corr > 0 {
            let q = silk_div32_varq(cross_corr, energy, 14)?;
            let cc_max_new = mark_down(q, contour_bias_q15, j);
            let top = best.top;
            if cc_max_new > top {
                if self.in_reach(d, j) {
                    return Some(BestSoFar {
                        top: cc_max_new,
                        lag: d,
                        contour: j,
                    });
                }
            }
            Some(best)
        } else {
            Some(best)
        }
    }

    // All contours of the lag d, and none where a quotient that is taken has divisor zero.
    fn scan_contours(
        self,
        best: BestSoFar,
        cross_corr_st3: &[[[i32; 5]; 34]; 4],
        energies_st3: &[[[i32; 5]; 34]; 4],
        energy_target: i32,
        contour_bias_q15: i32,
        d: usize,
    ) -> Option<BestSoFar>
        requires bias_is { contour_bias_q15 ≡ bias_of self.lag }
        requires lag_bound { (first_tried self.fs self.lag ≤ d) × (d ≤ last_tried self.fs self.lag) }
        requires best_of_first { BestOfFirst (array_choice cross_corr_st3.now energies_st3.now energy_target self) ((d - first_tried self.fs self.lag) * in_use self.codebook.nb self.codebook.complexity) best }
        ensures { AfterFirst (array_choice cross_corr_st3.now energies_st3.now energy_target self) ((d + 1 - first_tried self.fs self.lag) * in_use self.codebook.nb self.codebook.complexity) result }
    {
        let lag_counter = d - self.start_lag();
        let nb = self.codebook.nb;
        let nb_cbk_search = silk_tables::nb_cbk_search(nb, self.codebook.complexity);
        let mut now_best = best;
        for j in 0..nb_cbk_search {
            let cross_corr = sum_subframes(0, cross_corr_st3, nb, j, lag_counter);
            let energy = sum_subframes(energy_target, energies_st3, nb, j, lag_counter);
            now_best = self.consider(now_best, cross_corr, energy, contour_bias_q15, d, j)?;
        }
        Some(now_best)
    }

    // All lags near the winner, rising; none where a quotient that is taken has divisor zero.
    fn scan_lags(
        self,
        cross_corr_st3: &[[[i32; 5]; 34]; 4],
        energies_st3: &[[[i32; 5]; 34]; 4],
        energy_target: i32,
        contour_bias_q15: i32,
    ) -> Option<LagContour>
        requires { contour_bias_q15 ≡ bias_of self.lag }
        ensures { answer_of result ≡ pick (array_choice cross_corr_st3.now energies_st3.now energy_target self) }
    {
        let lag = self.lag;
        let first = self.start_lag();
        let end = self.end_lag() + 1;
        let mut best = BestSoFar {
            top: i32::MIN,
            lag: lag,
            contour: 0,
        };
        for d in first..end {
            best = self.scan_contours(
                best,
                cross_corr_st3,
                energies_st3,
                energy_target,
                contour_bias_q15,
                d,
            )?;
        }
        Some(LagContour {
            lag: best.lag,
            contour: best.contour,
        })
    }
}

// A pair's numbers added up over the subframes.
// Any count up to 4, and below any rate up to 16: the sums are defined for each.
fn sum_subframes(
    from: i32,
    values: &[[[i32; 5]; 34]; 4],
    nb_subfr: usize,
    j: usize,
    lag_counter: usize,
) -> i32
    requires { (nb_subfr ≤ 4) × ((j < 34) × (lag_counter < 5)) }
    ensures { result ≡ sat_sum from (λ (k : ℕ). at3 values.now k j lag_counter) nb_subfr }
{
    let mut sum = from;
    for subframe in &values[..nb_subfr] {
        sum = silk_add_sat32(sum, subframe[j][lag_counter]);
    }
    sum
}

// The quotient marked down for the contour.
fn mark_down(cc_max_new: i32, contour_bias_q15: i32, j: usize) -> i32
    requires { (pos 0 ≤ℤ contour_bias_q15) × ((contour_bias_q15 ≤ℤ pos 68) × (j < 34)) }
    ensures { result ≡ biased cc_max_new contour_bias_q15 j }
{
    let diff = 32767 - contour_bias_q15 * j as i32;
    silk_smulwb(cc_max_new, diff)
}

// The energy of all subframes, and 1.
fn target_energy(frame: &[i16], nb_subfr: usize, fs_khz: usize) -> i32
    requires { (fs_khz ≤ 16) × (20 * fs_khz + nb_subfr * (5 * fs_khz) ≤ length frame.now) }
    ensures { result ≡ energy_target frame.now fs_khz nb_subfr }
{
    let sf_length = 5 * fs_khz;
    wrapping_add_i32(energy_from(frame, 20 * fs_khz, nb_subfr * sf_length), 1)
}

// Stage 3 for a working frame and the winner of stage 2 scaled to its rate: the pair of a lag and a contour, and none where a divisor that is reached is zero.
pub fn search_stage3(frame: &[i16], lag: usize, s: Settings) -> Option<LagContour>
    requires { Handed frame.now s.rate s.nb s.complexity lag }
    ensures value { answer_of result ≡ stage3 frame.now s.rate s.nb s.complexity lag }
    ensures numbers { found_numbers (answer_of result) ≡ answer_numbers (stage3_verdict frame.now s.rate s.nb s.complexity lag) (stage3_values frame.now s.rate s.nb s.complexity lag) }
{
    let by = PairSearch {
        fs: s.rate,
        codebook: Codebook {
            nb: s.nb,
            complexity: s.complexity,
        },
        lag,
    };
    let at = FrameAtLag {
        frame,
        fs_khz: s.rate,
        codebook: by.codebook,
        start_lag: by.start_lag(),
    };
    let cross_corr_st3 = silk_p_ana_calc_corr_st3(at);
    let energies_st3 = silk_p_ana_calc_energy_st3(at);
    let contour_bias_q15 = silk_div32_16(1638, lag as i32);
    let energy_target = target_energy(frame, s.nb, s.rate);
    by.scan_lags(
        &cross_corr_st3,
        &energies_st3,
        energy_target,
        contour_bias_q15,
    )
}
