// The frame call and the threshold call for programs in C and Rust: each export is the function of `pitch_export` of its name, with its clauses.
#![tactic(auto)]

ghost use Rattle.std.specs.Prelude.{◌≡◌};
ghost use Rattle.pitch_export.specs.Export.{export_settings, lent_numbers, exported, export_call};
ghost use Rattle.pitch_export.specs.ThresholdExport.{threshold_exported, export_threshold_call};

// The frame call for C and Rust: 0, with the first nb lag places and the four numbers of the verdict written; or the number of the refusal (1 to 5), with nothing written.
#[unsafe(no_mangle)]
pub extern "C" fn pitch_frame(
    frame: &[i16],
    pitch_out: &mut [i32],
    rate: usize,
    nb: usize,
    complexity: usize,
    thres1: i32,
    thres2: i32,
    prev_lag: i32,
    prev_corr: i32,
    verdict: &mut i32,
    index: &mut i32,
    contour: &mut i32,
    correlation: &mut i32,
) -> usize
    ensures { exported result pitch_out.new (lent_numbers verdict.new index.new contour.new correlation.new) ≡ export_call (export_settings rate nb complexity thres1 thres2) frame.now pitch_out.old prev_lag prev_corr (lent_numbers verdict.old index.old contour.old correlation.old) }
{
    pitch_export::pitch_frame(
        frame,
        pitch_out,
        rate,
        nb,
        complexity,
        thres1,
        thres2,
        prev_lag,
        prev_corr,
        verdict,
        index,
        contour,
        correlation,
    )
}

// The threshold call for C and Rust: 0, with the threshold written, which is the thres2 of `pitch_frame`; or 11, where one of the four numbers leaves its range, with nothing written.
// The type of the signal is any number, as a program in C hands it over, and it is judged.
#[unsafe(no_mangle)]
pub extern "C" fn pitch_threshold(
    order: i32,
    activity: i32,
    signal_type: i32,
    tilt: i32,
    threshold: &mut i32,
) -> usize
    ensures { threshold_exported result threshold.new ≡ export_threshold_call order activity signal_type tilt threshold.old }
{
    pitch_export::pitch_threshold(order, activity, signal_type, tilt, threshold)
}
