// The program `frames`: reads records of settings, previous lag, previous correlation and a frame's samples from standard input, and prints a line for each (`frames_text` has what
// it prints). A record that is cut or refused is the last. Where a read fails it prints nothing more; that, or a failed write, it says in a line on standard error.
#![tactic(auto)]

ghost use Rattle.std.specs.Prelude.{◌≤◌, take, length, IfOk, IfSome, OnOk};
ghost use Rattle.std.specs.Io.KnownBytes.{Appends};
ghost use Rattle.std.specs.ControlFlow.{ForBreak, ForContinue};
ghost use Rattle.recording_io.specs.Counts.{IsPrefixLen};
ghost use Rattle.recording_io.specs.ReadAnswer.{most_reads};
ghost use Rattle.frames.specs.Output.{frames_output, RecordRead, LinePrinted, AllPrinted};
ghost use Rattle.frames_text.specs.Frames.{longest_record};
ghost use Rattle.pitch_settings.specs.Settings.{longest_frame};
ghost use Rattle.pitch_text.specs.Text.{row_text_bytes};

use frames_text::{LONGEST_RECORD, RECORD_HEAD, frame_text, record_length};
use pitch_settings::LONGEST_FRAME;
use pitch_text::ROW_TEXT_BYTES;
use recording_io::{EVERY, Failure, read_input, say_unread, write_output};
use rooms::room;
use std::io::{Read, Write};
use std::ops::ControlFlow;

// Reads a record: the bytes before its samples and as many more as they ask for, or what there is of them.
fn read_record<R: Read>(input: &mut R, bytes: &mut [u8]) -> Result<usize, Failure>
    requires { longest_record ≤ length bytes.old }
    ensures prefix_len { IfOk result (λ count. IsPrefixLen count bytes.new) }
    ensures record { IfOk result (λ count. IfSome (R.remaining input.old) (λ xs. RecordRead xs (take count bytes.new) (R.remaining input.new))) }
{
    let head = read_input(input, &mut bytes[..RECORD_HEAD])?;
    let end = record_length(&bytes[..head]);
    let rest = read_input(input, &mut bytes[head..end])?;
    Ok(head + rest)
}

// Reads a record and prints its line or its refusal; after it more may follow, or it was the last, at the end of the input or refused. Nothing follows a read or a write that failed.
// The rooms are slices of at least so many places, as what they are handed to asks.
fn print_record<R: Read, W: Write, E: Write>(
    input: &mut R,
    output: &mut W,
    errors: &mut E,
    bytes: &mut [u8],
    samples: &mut [i16],
    out: &mut [u8],
) -> Result<ControlFlow<()>, Failure>
    requires { (longest_record ≤ length bytes.old) × (longest_frame ≤ length samples.old) × (row_text_bytes ≤ length out.old) }
    ensures more { IfOk result (λ printed. ForContinue printed (λ _. IfSome (R.remaining input.old) (λ xs. LinePrinted xs (W.contents output.old) (W.contents output.new) (R.remaining input.new)))) }
    ensures last { IfOk result (λ printed. ForBreak printed (λ _. IfSome (R.remaining input.old) (λ xs. AllPrinted xs (W.contents output.old) (W.contents output.new)))) }
{
    let Ok(n) = read_record(input, bytes) else {
        say_unread(errors, b"frames");
        return Err(Failure::Reading);
    };
    if n == 0 {
        return Ok(ControlFlow::Break(()));
    }
    let line = frame_text(&bytes[..n], samples, out);
    write_output(output, errors, b"frames", &out[..line.len])?;
    match line.answer {
        Ok(()) => Ok(ControlFlow::Continue(())),
        Err(_) => Ok(ControlFlow::Break(())),
    }
}

// Every record, up to 2 to the 40.
fn print_frames<R: Read, W: Write, E: Write>(
    input: &mut R,
    output: &mut W,
    errors: &mut E,
) -> Result<(), Failure>
    ensures { OnOk result (IfSome (R.remaining input.old) (λ xs. Appends (W.contents output.old) (W.contents output.new) (frames_output most_reads xs))) }
{
    let mut bytes = room::<u8, LONGEST_RECORD>(0);
    let mut samples = room::<i16, LONGEST_FRAME>(0);
    let mut out = room::<u8, ROW_TEXT_BYTES>(0);
    // A `for` over a range: it counts records that are read, and no index.
    for _ in 0..EVERY {
        let printed = print_record(input, output, errors, &mut bytes, &mut samples, &mut out)?;
        match printed {
            ControlFlow::Continue(()) => {}
            ControlFlow::Break(()) => return Ok(()),
        }
    }
    Ok(())
}

// The streams are handed over in each main: what those of a process hold no contract can say, so a function that took them itself would promise nothing.
fn main(rt: HostRuntime) {
    let _ = print_frames(&mut rt.stdin(), &mut rt.stdout(), &mut rt.stderr());
}
