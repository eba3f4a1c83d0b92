// What `sheet_write` and `sheet_write_options` make of a recording: they track it, and write the track's sheet or the refusal.
#![tactic(auto)]

ghost use Rattle.std.proofs.Common.{rules};
ghost use Rattle.sheet_write_bytes.specs.Program.{sheet_written};

use pitch_recording::RecordedInput;
use recording_program::RecordingProgram;
use sheet_write_bytes::{LONGEST_PROGRAM_SHEET, sheet_write_bytes};

// The sheet of a recording's track, or the refusal: with it `run_program` writes what `sheet_write_bytes` says of the input.
pub struct TrackSheet;

impl RecordingProgram<LONGEST_PROGRAM_SHEET> for TrackSheet {
    ghost made = { sheet_written };

    fn make(input: RecordedInput, samples: &mut [i16], table: &mut [i32], out: &mut [u8]) -> usize {
        sheet_write_bytes(input, samples, table, out)
    }

    ghost fits = { Prim.search rules };
}
