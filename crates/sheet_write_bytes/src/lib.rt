// What the programs `sheet_write` and `sheet_write_options` write: their input's bytes are taken apart, tracked, and written as a sheet.
#![tactic(auto)]

ghost use Rattle.std.specs.Prelude.{◌≡◌, List, [], ◌++◌, ℕ, ◌/◌, ◌≤◌, length};
ghost use Rattle.lists.specs.Fill.{overwritten};
ghost use Rattle.track_settings.specs.TrackSettings.{stored_settings};
ghost use Rattle.track_paper.specs.Paper.{track_limit, paper_no, paper_table};
ghost use Rattle.pitch_recording.specs.Recording.{recording_samples, recording_numbers, recording_printed};
ghost use Rattle.track_sheet.specs.Accepted.{paper_sheet};
ghost use Rattle.sheet_write_bytes.specs.Program.{longest_program_sheet, sheet_bytes_call};
ghost use Rattle.pitch_table.specs.Row.{row_size};

use pitch_recording::{PROGRAM_FRAMES, RecordedInput, RecordedTrack, take_recording};
use pitch_sheet::write_sheet;
use pitch_text::put_refusal;
use pitch_track::Track;
use sheet_sections::{SHORTEST_SHEET, VOICED_FRAME_BYTES};

// The longest sheet: that of as many voiced frames as a program takes.
pub const LONGEST_PROGRAM_SHEET: usize = SHORTEST_SHEET + PROGRAM_FRAMES * VOICED_FRAME_BYTES;

// The sheet of the recording, in the first bytes of `out`, and its track's rows in the table; how many bytes it has. A track is started, fed and written: the writing takes what the delivery took.
fn put_track(recorded: RecordedTrack, table: &mut [i32], out: &mut [u8]) -> usize
    requires { (paper_no track_limit (stored_settings recorded.settings) (length table.old / row_size) [] recorded.samples.now ≡ 0) × (length (paper_sheet recorded.settings recorded.samples.now) ≤ length out.old) }
    ensures { (result ≡ length (paper_sheet recorded.entry.settings recorded.entry.samples.now)) × (out.new ≡ overwritten (paper_sheet recorded.entry.settings recorded.entry.samples.now) out.old) × (table.new ≡ paper_table recorded.entry.settings table.old recorded.entry.samples.now) }
{
    let k = recorded.settings;
    let started = Track::start(k);
    let delivered = started.track.deliver(recorded.samples, table);
    let done = delivered.track;
    let frames = done.frames;
    let stored = k.stored();
    // there is no refusal
    write_sheet(stored, frames, table, out).unwrap_or(0)
}

// The bytes for an input, in the first bytes of `out`; how many they are. The input's samples are left in the first places of
// `samples` and its rows in the first rows of `table`, by a refusal nothing; all else stays.
// The rooms are slices of at least so many places: arrays would ask more of callers. What is taken and what is refused is all that this shares with a track's text.
pub fn sheet_write_bytes(
    input: RecordedInput,
    samples: &mut [i16],
    table: &mut [i32],
    out: &mut [u8],
) -> usize
    requires { (recording_samples ≤ length samples.old) × (recording_numbers ≤ length table.old) × (longest_program_sheet ≤ length out.old) }
    ensures by_index { (rest : List ℕ) → length rest ≡ input.entry.more → recording_printed result out.new samples.new table.new ≡ sheet_bytes_call input.entry.head (input.entry.bytes.now ++ rest) out.old samples.old table.old }
    ensures upper_bound { result ≤ longest_program_sheet }
{
    match take_recording(input, samples) {
        Ok(recording) => {
            let recorded = RecordedTrack {
                settings: recording.settings,
                samples: &samples[..recording.samples],
            };
            put_track(recorded, table, out)
        }
        Err(refusal) => put_refusal(out, 0, refusal),
    }
}
