// The frame call: one whitened frame in; verdict, lag index, contour index, correlation and subframe lags out.
#![tactic(auto)]

ghost use Rattle.std.specs.Prelude.{◌≡◌, ◌≤◌, IfOk, length, take};
ghost use Rattle.pitch_settings.specs.Settings.{frame_length};
ghost use Rattle.refusals.specs.Refusals.{told, number_told};
ghost use Rattle.silk_pitch_analysis.specs.Frame.{verdict_of, frame_row, row_answer, frame_no, frame_outcome, frame_call, frame_answer_numbers, row_answer_in_numbers, frame_in_numbers, row_in_numbers};
ghost use Rattle.silk_pitch_analysis.specs.Steps.{verdict_without, VerdictCarried};

mod analysis;
mod working;

use analysis::Analysis;
use answers::NoPitch;
use frame_signals::{frame_shift, scale_into, working_frame};
use pitch_settings::{Analysed, Settings};
use pitch_table::Row;
use refusals::Refusal;
pub use stage2::Previous;
use working::WorkingFrame;

// A frame's verdict, and a voiced frame's pair and correlation (Q15).
// An enum of three cases and no Result: that a frame has no pitch is an answer to customers and no failure, and the definitions go by the three.
#[derive(Clone, Copy)]
pub enum Verdict {
    Voiced {
        index: i32,
        contour: i32,
        correlation: i32,
    },
    Unvoiced,
    ZeroDivisor,
}

impl From<NoPitch> for Verdict {
    ghost from_gives = { λ e v. v ≡ verdict_without e };

    fn from(e: NoPitch) -> Verdict {
        match e {
            NoPitch::Unvoiced => Verdict::Unvoiced,
            NoPitch::ZeroDivisor => Verdict::ZeroDivisor,
        }
    }
}

// The settings as analysed ones for n samples and m lag places, or refusal 1 to 5.
#[tactic(auto, unfolding(crate::specs::Frame::frame_no))]
fn accept(s: Settings, n: usize, m: usize) -> Result<Analysed, Refusal>
    ensures number { number_told result ≡ frame_no s n m }
    ensures settings { IfOk result (λ a. a.settings ≡ s) }
    ensures samples { IfOk result (λ a. frame_length s ≤ n) }
    ensures places { IfOk result (λ a. s.nb ≤ m) }
{
    let analysed = s.analysed()?;
    if n < analysed.frame_length() {
        return Err(Refusal::ShortFrame);
    }
    if m < s.nb {
        return Err(Refusal::ShortSlots);
    }
    Ok(analysed)
}

// The verdict of the first N samples, whose pair is one that the code carries.
fn analyse(frame: &[i16], s: Analysed, prev: Previous) -> Verdict
    requires { frame_length s.settings ≤ length frame.now }
    ensures verdict { result ≡ verdict_of s.settings (take (frame_length s.settings) frame.now) prev.lag prev.correlation }
    ensures carried { VerdictCarried s.settings result }
{
    let samples = &frame[..s.frame_length()];
    let mut scratch = [0i16; 640];
    let shift = frame_shift(samples);
    scale_into(samples, &mut scratch, shift);
    let working = WorkingFrame {
        samples: working_frame(samples, &scratch, shift),
        settings: s,
    };
    working.verdict(prev)
}

// The row of the first N samples, of settings that are known to be analysed and with the samples of a frame: it is never refused.
// The samples are the caller's, so that there are enough is said at each of the functions that begin with them.
#[tactic(auto, unfolding(crate::specs::Frame::frame_row))]
pub fn analysed_row(s: Analysed, x: &[i16], prev: Previous) -> Row
    requires { frame_length s.settings ≤ length x.now }
    ensures { result ≡ frame_row s.settings (take (frame_length s.settings) x.now) prev.lag prev.correlation }
{
    Analysis::of(x, s, prev).row()
}

// The row of the first N samples, or refusals 1 to 4 in order: a row has four lag places, so 5 never comes.
// The previous lag and correlation are two numbers, as the frame call has them.
pub fn frame_row(s: Settings, x: &[i16], prev_lag: i32, prev_corr: i32) -> Result<Row, Refusal>
    ensures answer { told result ≡ row_answer s x.now prev_lag prev_corr }
    ensures numbers { row_answer_in_numbers (told result) ≡ row_in_numbers s x.now prev_lag prev_corr }
{
    let analysed = accept(s, x.len(), 4)?;
    let prev = Previous {
        lag: prev_lag,
        correlation: prev_corr,
    };
    Ok(analysed_row(analysed, x, prev))
}

// The frame call. Refusals 1 to 5 in order leave the lag places as they are; else the first N samples are analysed, and the first nb lag places are written.
// The previous lag and correlation are two numbers, since the source's call has them so.
pub fn silk_pitch_analysis_core(
    frame: &[i16],
    pitch_out: &mut [i32],
    s: Settings,
    prev_lag: i32,
    prev_corr: i32,
) -> Result<Verdict, Refusal>
    ensures outcome { frame_outcome (told result) pitch_out.new ≡ frame_call s frame.now pitch_out.old prev_lag prev_corr }
    ensures numbers { frame_answer_numbers (told result) ≡ frame_in_numbers s frame.now (length pitch_out.old) prev_lag prev_corr }
{
    let analysed = accept(s, frame.len(), pitch_out.len())?;
    let prev = Previous {
        lag: prev_lag,
        correlation: prev_corr,
    };
    let found = Analysis::of(frame, analysed, prev);
    found.put_lags(pitch_out);
    Ok(found.verdict)
}
