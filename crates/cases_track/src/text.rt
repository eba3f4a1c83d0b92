// An input of the program `track` or `track_options`, by its head, and the text for it. The body: how many bytes of 0 stand after the input, the text's length (4 bytes each), the text, the input.
ghost use Rattle.std.specs.Prelude.{List, ◌++◌, ◌≡◌, ℕ, ◌≤◌, length};
ghost use Rattle.track_text.specs.Program.{track_text};
ghost use Rattle.cases_track.specs.Text.{Tells, TextAgrees};

use cases_io::u32_at;
use pitch_recording::{RECORDING_BYTES, RECORDING_NUMBERS, RECORDING_SAMPLES, RecordedInput};
use recording_head::Head;
use rooms::room;
use track_text::{LONGEST_TEXT, track_text};

// Whether the text for this input is the one told.
fn is_told(input: RecordedInput, told: &[u8]) -> bool
    ensures { (rest : List ℕ) → length rest ≡ input.entry.more → Tells result (track_text input.entry.head (input.entry.bytes.now ++ rest) ≡ told.now) }
{
    let mut samples = room::<i16, RECORDING_SAMPLES>(0);
    let mut table = room::<i32, RECORDING_NUMBERS>(0);
    let mut out = room::<u8, LONGEST_TEXT>(0);
    let r = track_text(input, &mut samples, &mut table, &mut out);
    &out[..r] == told
}

// Whether the text is the one that the body tells. The bytes after the body are 0, and so the input's zeros are among them; those past the program's room are only counted. The size stands beside
// the slice, which can't end with the body: the zeros after it are part of the input.
pub fn agrees(head: Head, body: &[u8], size: usize) -> bool
    requires { (1048576 ≡ length body.now) × (size ≤ 1048576) }
    ensures { Tells result (TextAgrees head body.now size) }
{
    let zeros = u32_at(body, 0);
    let told = u32_at(body, 4);
    if told > LONGEST_TEXT {
        return false;
    }
    let from = 8 + told;
    if from > size {
        return false;
    }
    let whole = size - from + zeros;
    let len = whole.min(RECORDING_BYTES);
    let end = from + len;
    let input = RecordedInput {
        head,
        bytes: &body[from..end],
        more: whole - len,
    };
    is_told(input, &body[8..from])
}
