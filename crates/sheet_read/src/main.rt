// The program `sheet_read`: reads a sheet from standard input and prints its settings and rows, or the refusal (`sheet_text` has what it prints).
// Where a read fails it prints nothing; that, or a failed write, it says in a line on standard error.
#![tactic(auto)]

ghost use Rattle.std.specs.Prelude.{IfSome, OnOk};
ghost use Rattle.std.specs.Io.KnownBytes.{Appends};
ghost use Rattle.sheet_text.specs.Program.{sheet_text};

use pitch_table::{MOST_FRAMES, ROW_SIZE};
use recording_io::{Failure, read_whole, say_unread, write_output};
use rooms::room;
use sheet_sections::LONGEST_SHEET;
use sheet_text::{SHEET_TEXT_BYTES, sheet_text};
use std::io::{Read, Write};

// The numbers of the most rows.
const MOST_NUMBERS: usize = MOST_FRAMES * ROW_SIZE;

// Prints what `sheet_text` says of the input. Of what follows a sheet's longest no more is read than tells that it is there.
fn print_sheet<R: Read, W: Write, E: Write>(
    input: &mut R,
    output: &mut W,
    errors: &mut E,
) -> Result<(), Failure>
    ensures { OnOk result (IfSome (R.remaining input.old) (λ xs. Appends (W.contents output.old) (W.contents output.new) (sheet_text xs))) }
{
    let mut page = room::<u8, LONGEST_SHEET>(0);
    let Ok(whole) = read_whole(input, &mut page, 1) else {
        say_unread(errors, b"sheet_read");
        return Err(Failure::Reading);
    };
    let n = whole.count;
    let mut table = room::<i32, MOST_NUMBERS>(0);
    let mut out = room::<u8, SHEET_TEXT_BYTES>(0);
    let r = sheet_text(&page[..n], whole.more > 0, &mut table, &mut out);
    write_output(output, errors, b"sheet_read", &out[..r])
}

// The streams are handed over in each main: what those of a process hold no contract can say, so a function that took them itself would promise nothing.
fn main(rt: HostRuntime) {
    let _ = print_sheet(&mut rt.stdin(), &mut rt.stdout(), &mut rt.stderr());
}
