// What the programs `track` and `track_options` print: their input's bytes are taken apart, tracked, and written as text.
#![tactic(auto)]

ghost use Rattle.std.specs.Prelude.{◌≡◌, List, ◌++◌, ℕ, ◌≤◌, length};
ghost use Rattle.pitch_recording.specs.Recording.{recording_samples, recording_numbers, recording_printed};
ghost use Rattle.pitch_text.specs.Text.{Put};
ghost use Rattle.track_paper.specs.Paper.{F, paper_table};
ghost use Rattle.track_text.specs.Program.{longest_head, longest_text, samples_left, track_head, track_report, track_text_call, Tracked};

use pitch_recording::{PROGRAM_FRAMES, RecordedInput, RecordedTrack, take_recording};
use pitch_settings::Analysed;
use pitch_table::ROW_SIZE;
use pitch_text::{DIGITS_BYTES, LINE_BYTES, put_digits, put_lines, put_refusal};
use pitch_track::Track;

// The longest text: the first line's two numbers, the space between them and its end, and a line for each frame that a program takes.
pub const LONGEST_TEXT: usize = DIGITS_BYTES + 1 + DIGITS_BYTES + 1 + LINE_BYTES * PROGRAM_FRAMES;

// Of n samples with these frames, those after the last frame's end.
fn samples_left(s: Analysed, n: usize, frames: usize) -> usize
    requires { frames ≡ F s.settings n }
    ensures { result ≡ samples_left s.settings n }
{
    if frames == 0 {
        return n;
    }
    n - ((frames - 1) * s.hop_length() + s.frame_length())
}

// The rows of the recording's track, in the table; their number.
fn track_rows(recorded: RecordedTrack, table: &mut [i32]) -> usize
    requires { recording_numbers ≤ length table.old }
    ensures { Tracked recorded.entry.settings recorded.entry.samples.now table.old result table.new }
{
    let started = Track::start(recorded.settings);
    let delivered = started.track.deliver(recorded.samples, table);
    delivered.track.frames
}

// Frame count and samples left.
fn put_head(out: &mut [u8], frames: u32, left: u32) -> usize
    requires { longest_head ≤ length out.old }
    ensures { Put out.old 0 (track_head frames left) result out.new × (result ≤ longest_head) }
{
    let p = put_digits(out, 0, frames);
    out[p] = b' ';
    let q = put_digits(out, p + 1, left);
    out[q] = b'\n';
    q + 1
}

// The text for the recording, and its track's rows in the table.
fn put_report(recorded: RecordedTrack, table: &mut [i32], out: &mut [u8]) -> usize
    requires { (recording_numbers ≤ length table.old) × (longest_text ≤ length out.old) }
    ensures { Put out.old 0 (track_report recorded.entry.settings recorded.entry.samples.now) result out.new × (result ≤ longest_text) × (table.new ≡ paper_table recorded.entry.settings table.old recorded.entry.samples.now) }
{
    let k = recorded.settings;
    let frames = track_rows(recorded, table);
    let s = Analysed {
        settings: k.stored(),
    };
    let left = samples_left(s, recorded.samples.len(), frames);
    let p = put_head(out, frames as u32, left as u32);
    put_lines(out, p, k.nb, &table[..frames * ROW_SIZE])
}

// The text for an input, in the first bytes of `out`; how many they are. The input's samples are left in the first places of
// `samples` and its rows in the first rows of `table`, by a refusal nothing; all else stays.
// The rooms are slices of at least so many places: arrays would ask more of callers. What is taken and what is refused is all that this shares with a sheet's bytes.
pub fn track_text(
    input: RecordedInput,
    samples: &mut [i16],
    table: &mut [i32],
    out: &mut [u8],
) -> usize
    requires { (recording_samples ≤ length samples.old) × (recording_numbers ≤ length table.old) × (longest_text ≤ length out.old) }
    ensures by_index { (rest : List ℕ) → length rest ≡ input.entry.more → recording_printed result out.new samples.new table.new ≡ track_text_call input.entry.head (input.entry.bytes.now ++ rest) out.old samples.old table.old }
    ensures upper_bound { result ≤ longest_text }
{
    match take_recording(input, samples) {
        Ok(recording) => {
            let recorded = RecordedTrack {
                settings: recording.settings,
                samples: &samples[..recording.samples],
            };
            put_report(recorded, table, out)
        }
        Err(refusal) => put_refusal(out, 0, refusal),
    }
}
