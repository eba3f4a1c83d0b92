// The frame call and the threshold call on numbers and slices, as programs in C and Rust are offered them: `pitch_export_c` exports both.
#![tactic(auto)]

ghost use Rattle.std.specs.Prelude.{◌≡◌};
ghost use Rattle.silk_pitch_analysis.specs.Frame.{verdict_numbers};
ghost use Rattle.pitch_export.specs.Export.{export_settings, lent_numbers, exported, export_call};
ghost use Rattle.pitch_export.specs.ThresholdExport.{threshold_exported, export_threshold_call};

use pitch_settings::Settings;
use silk_pitch_analysis::{Verdict, silk_pitch_analysis_core};
use speech_threshold::Speech;

// Writes the four numbers of a verdict, whose kind is a number to a program in C.
fn put_verdict(
    v: Verdict,
    verdict: &mut i32,
    index: &mut i32,
    contour: &mut i32,
    correlation: &mut i32,
)
    ensures { lent_numbers verdict.new index.new contour.new correlation.new ≡ verdict_numbers v }
{
    *index = 0;
    *contour = 0;
    *correlation = 0;
    match v {
        Verdict::Voiced {
            index: i,
            contour: c,
            correlation: q,
        } => {
            *verdict = 0;
            *index = i;
            *contour = c;
            *correlation = q;
        }
        Verdict::Unvoiced => {
            *verdict = 1;
        }
        Verdict::ZeroDivisor => {
            *verdict = 2;
        }
    }
}

// The frame call: 0, with the first nb lag places and the four numbers of the verdict written; or the number of the refusal (1 to 5), with nothing written.
pub fn pitch_frame(
    frame: &[i16],
    pitch_out: &mut [i32],
    rate: usize,
    nb: usize,
    complexity: usize,
    thres1: i32,
    thres2: i32,
    prev_lag: i32,
    prev_corr: i32,
    verdict: &mut i32,
    index: &mut i32,
    contour: &mut i32,
    correlation: &mut i32,
) -> usize
    ensures { exported result pitch_out.new (lent_numbers verdict.new index.new contour.new correlation.new) ≡ export_call (export_settings rate nb complexity thres1 thres2) frame.now pitch_out.old prev_lag prev_corr (lent_numbers verdict.old index.old contour.old correlation.old) }
{
    let s = Settings {
        rate,
        nb,
        complexity,
        thres1,
        thres2,
    };
    match silk_pitch_analysis_core(frame, pitch_out, s, prev_lag, prev_corr) {
        Ok(v) => {
            put_verdict(v, verdict, index, contour, correlation);
            0
        }
        Err(refused) => refused.number(),
    }
}

// The threshold call: 0, with the threshold written, which is the thres2 of `pitch_frame`; or 11, where one of the four numbers leaves its range, with nothing written.
// The type of the signal is any number, as a program in C hands it over, and it is judged.
pub fn pitch_threshold(
    order: i32,
    activity: i32,
    signal_type: i32,
    tilt: i32,
    threshold: &mut i32,
) -> usize
    ensures { threshold_exported result threshold.new ≡ export_threshold_call order activity signal_type tilt threshold.old }
{
    let speech = Speech {
        order,
        activity,
        tilt,
    };
    match speech.threshold(signal_type) {
        Ok(value) => {
            *threshold = value;
            0
        }
        Err(refusal) => refusal.number(),
    }
}
