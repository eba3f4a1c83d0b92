// What the programs do that take a recording: read it from standard input, and write what they make of it.
#![tactic(auto)]

ghost use Rattle.std.specs.Prelude.{◌≡◌, List, ◌++◌, ℕ, ◌^◌, ◌<◌, ◌≤◌, take, length, IfSome, OnOk};
ghost use Rattle.std.specs.Io.KnownBytes.{Appends};
ghost use Rattle.pitch_recording.specs.Recording.{recording_samples, recording_numbers};
ghost use Rattle.recording_head.specs.declared.Head.{Head};
ghost use Rattle.recording_io.specs.ReadAnswer.{most_reads};

use pitch_recording::{RECORDING_BYTES, RECORDING_NUMBERS, RECORDING_SAMPLES, RecordedInput};
use recording_head::Head;
use recording_io::{Failure, read_recording, write_output};
use rooms::room;
use std::io::{Read, Write};

// What a program makes of a recording: at most LONGEST bytes.
pub trait RecordingProgram<const LONGEST: usize> {
    // the bytes that it makes of an input with this head
    ghost made: { Head → List ℕ → List ℕ };

    // Puts them into the first bytes of `out`, for this input; how many they are. Samples and rows are left in the rooms for them.
    fn make(input: RecordedInput, samples: &mut [i16], table: &mut [i32], out: &mut [u8]) -> usize
        requires { (recording_samples ≤ length samples.old) × (recording_numbers ≤ length table.old) × (LONGEST ≤ length out.old) }
        ensures value { (rest : List ℕ) → length rest ≡ input.entry.more → take result out.new ≡ made input.entry.head (input.entry.bytes.now ++ rest) }
        ensures bound { result ≤ LONGEST };

    // as many as an array can have
    ghost fits: { LONGEST < 2 ^ 63 };
}

// Writes what the program makes of the input, a recording with this head. Where a read fails it writes nothing; that, or a failed write, it says on standard error in the program's name.
pub fn run_program<P: RecordingProgram<LONGEST>, const LONGEST: usize, R: Read, W: Write, E: Write>(
    input: &mut R,
    output: &mut W,
    errors: &mut E,
    name: &[u8],
    head: Head,
) -> Result<(), Failure>
    ensures { OnOk result (IfSome (R.remaining input.old)
        (λ xs. length xs < most_reads → Appends (W.contents output.old) (W.contents output.new) (P.made head xs))) }
{
    let mut bytes = room::<u8, RECORDING_BYTES>(0);
    let whole = read_recording(input, errors, name, &mut bytes)?;
    let n = whole.count;
    let mut samples = room::<i16, RECORDING_SAMPLES>(0);
    let mut table = room::<i32, RECORDING_NUMBERS>(0);
    let mut out = room::<u8, LONGEST>(0);
    let recorded = RecordedInput {
        head,
        bytes: &bytes[..n],
        more: whole.more,
    };
    let made = P::make(recorded, &mut samples, &mut table, &mut out);
    write_output(output, errors, name, &out[..made])
}
