// Stage 1 of the pitch analyser: the lags at 4 kHz that go on to stage 2.
// The functions are our cut of the source: `silk_pitch_analysis_core` (pitch_analysis.rs) does all this in its lines 201 to 290. The macros, kernels and the sort are the
// source's, and so are the names of constants and variables.
#![tactic(auto)]

ghost use Rattle.std.specs.Prelude.{◌≡◌, [], ◌⊎◌, ℕ, ◌+◌, ◌-◌, ◌*◌, ◌<◌, ◌≤◌, ◌+ℤ◌, length, get_or, replicate};
ghost use Rattle.answers.specs.Answer.{answer_numbers};
ghost use Rattle.lists.specs.Signal.{sample};
ghost use Rattle.lists.specs.Fill.{tabulate, filled};
ghost use Rattle.stage1.specs.Stage1.{biased1, search_length, answer_of, stage1, screen_numbers, screen_number, Handed1};
ghost use Rattle.stage1.specs.Steps.{scored, count_above, selected};

mod candidates;
mod half_frame;

use answers::NoPitch;
pub use candidates::Candidates;
use half_frame::HalfFrame;
use pitch_settings::Settings;
use silk_macros::{silk_smlawb, silk_smulwb};
use silk_sort::silk_insertion_sort_decreasing_int16;
use std::array;
use zint::as_i16;

// The lags at 4 kHz.
const MIN_LAG_4KHZ: usize = 8;

const MAX_LAG_4KHZ: usize = 72;

const CSTRIDE_4KHZ: usize = MAX_LAG_4KHZ + 1 - MIN_LAG_4KHZ;

// A lag's score: the sum of its two correlations, marked down for the lag.
fn biased(first: i16, second: i16, lag: usize) -> i16
    requires { lag ≤ 72 }
    ensures { result ≡ biased1 (first +ℤ second) lag }
{
    let sum = first as i32 + second as i32;
    as_i16(silk_smlawb(sum, sum, 0 - (16 * lag) as i32))
}

// The scores from the correlations of two half-frames.
fn combine(first: &[i16; 65], second: &[i16; 65]) -> [i16; 65]
    ensures { result ≡ tabulate (λ (i : ℕ). biased1 (sample first.now i +ℤ sample second.now i) (8 + i)) 65 }
{
    array::from_fn(|i| biased(first[i], second[i], MIN_LAG_4KHZ + i))
}

// The scores of all lags; none where a divisor is zero. The only half-frame of two subframes counts twice.
fn scores(frame_4khz: &[i16], nb_subfr: usize) -> Option<[i16; 65]>
    requires { ((nb_subfr ≡ 2) ⊎ (nb_subfr ≡ 4)) × ((20 + 5 * nb_subfr) * 4 ≤ length frame_4khz.now) }
    ensures { result ≡ scored frame_4khz.now nb_subfr }
{
    let first = HalfFrame { frame_4khz, h: 0 }.correlations()?;
    if nb_subfr != 4 {
        return Some(combine(&first, &first));
    }
    let second = HalfFrame { frame_4khz, h: 1 }.correlations()?;
    Some(combine(&first, &second))
}

// How many places of the ranking are searched: at least one and at most eight.
// Subframe count and complexity are plain numbers with their bounds: settings would ask more than is needed.
#[tactic(auto, unfolding(crate::specs::Stage1::search_length))]
fn search_length(complexity: usize) -> usize
    requires { complexity < 3 }
    ensures value { result ≡ search_length complexity }
    ensures some { 0 < result }
    ensures few { result ≤ 8 }
{
    (complexity << 1) + 4
}

// How many of the scores lie, from the front on, above the threshold.
fn run_above(c_combined: &[i16], threshold: i32) -> usize
    ensures value { result ≡ count_above c_combined.now (length c_combined.now) threshold }
    ensures within { result ≤ length c_combined.now }
{
    c_combined
        .iter()
        .position(|score| *score as i32 <= threshold)
        .unwrap_or(c_combined.len())
}

// The indices as lags.
// By place and not by a `zip` with `iter_mut`, of whose writing a proof knows nothing.
fn lags_of(d_srch: &[usize]) -> [usize; 8]
    requires { (length d_srch.now ≤ 8) × ((i : ℕ) → i < length d_srch.now → get_or d_srch.now i 0 < 65) }
    ensures { result ≡ filled (λ (i : ℕ). 8 + get_or d_srch.now i 0) (length d_srch.now) (replicate 8 0) }
{
    let mut lags = [0usize; 8];
    for (i, d) in d_srch.iter().enumerate() {
        lags[i] = MIN_LAG_4KHZ + *d;
    }
    lags
}

// The answer from the scores that are searched, best first, and their indices.
fn select(
    c_combined: &[i16],
    d_srch: &[usize],
    search_thres1_q16: i32,
) -> Result<Candidates, NoPitch>
    requires { (0 < length c_combined.now) × ((length c_combined.now ≤ 8) × ((length d_srch.now ≡ length c_combined.now) × ((i : ℕ) → i < length d_srch.now → get_or d_srch.now i 0 < 65))) }
    ensures { answer_of result ≡ selected c_combined.now d_srch.now (length c_combined.now) search_thres1_q16 }
{
    let best = c_combined[0] as i32;
    if best < 3277 {
        return Err(NoPitch::Unvoiced);
    }
    let threshold = silk_smulwb(search_thres1_q16, best);
    let count = run_above(c_combined, threshold);
    let lags = lags_of(&d_srch[..count]);
    Ok(Candidates { lags, count })
}

// Stage 1: the lags that go on, or that the frame is unvoiced, or a zero divisor.
pub fn search_stage1(frame_4khz: &[i16], s: Settings) -> Result<Candidates, NoPitch>
    requires { Handed1 frame_4khz.now s.nb s.complexity }
    ensures value { answer_of result ≡ stage1 frame_4khz.now s.nb s.complexity s.thres1 }
    ensures screen_number { screen_numbers (answer_of result).screen ≡ answer_numbers (screen_number frame_4khz.now s.nb) [] }
{
    let mut c_combined = scores(frame_4khz, s.nb).ok_or(NoPitch::ZeroDivisor)?;
    let mut d_srch = [0usize; 8];
    let length_d_srch = search_length(s.complexity);
    silk_insertion_sort_decreasing_int16(&mut c_combined, &mut d_srch, CSTRIDE_4KHZ, length_d_srch);
    select(
        &c_combined[..length_d_srch],
        &d_srch[..length_d_srch],
        s.thres1,
    )
}
