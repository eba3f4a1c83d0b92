// What `track` and `track_options` make of a recording: they track it, and print its rows or the refusal.
#![tactic(auto)]

ghost use Rattle.std.proofs.Common.{rules};
ghost use Rattle.track_text.specs.Program.{track_text};

use pitch_recording::RecordedInput;
use recording_program::RecordingProgram;
use track_text::{LONGEST_TEXT, track_text};

// The rows of a recording's track as text, or the refusal: with it `run_program` prints what `track_text` says of the input.
pub struct TrackText;

impl RecordingProgram<LONGEST_TEXT> for TrackText {
    ghost made = { track_text };

    fn make(input: RecordedInput, samples: &mut [i16], table: &mut [i32], out: &mut [u8]) -> usize {
        track_text(input, samples, table, out)
    }

    ghost fits = { Prim.search rules };
}
