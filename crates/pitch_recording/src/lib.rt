// A recording as a program's input: a head that says the settings, and then samples. The input is judged, and its samples are loaded.
#![tactic(auto)]

ghost use Rattle.std.specs.Prelude.{◌≡◌, List, ◌++◌, ℕ, ◌≤◌, ltb, pos, length};
ghost use Rattle.refusals.specs.Refusals.{told, number_told};
ghost use Rattle.track_settings.specs.TrackSettings.{stored_settings, track_settings_no};
ghost use Rattle.track_paper.specs.Paper.{F};
ghost use Rattle.pitch_recording.specs.Recording.{program_frames, recording_samples, recording_no, take_outcome, take_call};

mod input;

pub use input::RecordedInput;
use pitch_input::load_samples;
use pitch_settings::{Analysed, LONGEST_FRAME};
use pitch_table::ROW_SIZE;
use recording_head::{LONGEST_HEAD, head_known, head_settings, head_size};
use refusals::Refusal;
use track_settings::TrackSettings;

// The frames that a program takes at most.
pub const PROGRAM_FRAMES: usize = 1024;

// The greatest hop: 16 kHz, four subframes.
pub const LONGEST_HOP: usize = 320;

// As many samples have more frames than a program takes, at all settings.
pub const RECORDING_SAMPLES: usize = PROGRAM_FRAMES * LONGEST_HOP + LONGEST_FRAME;

// As many bytes have them after every head.
pub const RECORDING_BYTES: usize = LONGEST_HEAD + 2 * RECORDING_SAMPLES;

// The numbers of a table with a row for each frame that a program takes.
pub const RECORDING_NUMBERS: usize = PROGRAM_FRAMES * ROW_SIZE;

// An input that is taken: its settings, and how many samples it has.
// A count and not the samples as a slice: what is said of `take_recording` speaks of the whole room after it, which a slice of it would keep lent.
#[derive(Clone, Copy)]
pub struct Recording {
    pub settings: TrackSettings,
    pub samples: usize,
}

// A recording that was taken, as it is tracked: settings that start a track, and its samples, which have no more frames than a program takes.
#[derive(Clone, Copy)]
pub struct RecordedTrack<'a> {
    pub settings: TrackSettings,
    pub samples: &'a [i16],
    pub ghost accepted: { track_settings_no settings (pos 0) ≡ 0 },
    pub ghost few: { F (stored_settings settings) (length samples.now) ≤ program_frames },
}

// Whether n samples have more frames than a program takes.
fn is_long(s: Analysed, n: usize) -> bool
    ensures { result ≡ ltb program_frames (F s.settings n) }
{
    n >= PROGRAM_FRAMES * s.hop_length() + s.frame_length()
}

// The refusal of an input, if there is one.
fn check(input: RecordedInput) -> Result<(), Refusal>
    ensures { (rest : List ℕ) → length rest ≡ input.entry.more → number_told result ≡ recording_no input.entry.head (input.entry.bytes.now ++ rest) }
{
    let RecordedInput { head, bytes, more } = input;
    let len = bytes.len();
    let size = head_size(head);
    if len < size {
        return Err(Refusal::HalfInput);
    }
    let half = (len - size + more % 2) % 2 == 1;
    if half {
        return Err(Refusal::HalfInput);
    }
    let track = head_settings(head, bytes).analysed(0)?;
    if more > 0 {
        return Err(Refusal::LongTrack);
    }
    let long = is_long(track.stored(), (len - size) / 2);
    if long {
        return Err(Refusal::LongTrack);
    }
    let known = head_known(head, bytes);
    if !known {
        return Err(Refusal::Malformed);
    }
    Ok(())
}

// Judges an input: refusals 10, then 1, 2, 3, then 11 where the second threshold comes from the speech, then 6 over the frames that a program takes, then 9 for options that are not known. An
// input that is taken leaves its samples in the first places of `samples`; a refusal leaves them all.
// The room is a slice of at least so many places: an array would ask more of callers.
pub fn take_recording(input: RecordedInput, samples: &mut [i16]) -> Result<Recording, Refusal>
    requires { recording_samples ≤ length samples.old }
    ensures { (rest : List ℕ) → length rest ≡ input.entry.more → take_outcome (told result) samples.new ≡ take_call input.entry.head (input.entry.bytes.now ++ rest) samples.old }
{
    check(input)?;
    let RecordedInput { head, bytes, .. } = input;
    let size = head_size(head);
    let settings = head_settings(head, bytes);
    let n = (bytes.len() - size) / 2;
    load_samples(bytes, size, &mut samples[..n]);
    Ok(Recording {
        settings,
        samples: n,
    })
}
