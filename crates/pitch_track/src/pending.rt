// The samples from which the next frames are taken: those that a track holds, and then those delivered, one list in two parts.
ghost use Rattle.std.specs.Prelude.{◌≡◌, ◌++◌, ◌+◌, ◌≤◌, length, take, drop};
ghost use Rattle.pitch_settings.specs.Settings.{frame_length, longest_frame};
ghost use Rattle.silk_pitch_analysis.specs.Frame.{frame_row};
ghost use Rattle.pitch_track.specs.Step.{padded};

use pitch_settings::{Analysed, LONGEST_FRAME};
use pitch_table::Row;
use silk_pitch_analysis::{Previous, analysed_row};
use track_paper::Prev;

// What is not yet analysed: the samples held, and those delivered, which follow them.
// Two slices: nothing allocates, so they are never joined.
#[derive(Clone, Copy)]
pub struct Pending<'a> {
    pub held: &'a [i16],
    pub samples: &'a [i16],
}

impl Pending<'_> {
    // The `size` samples from `from` on, at the front of the places for samples held; the other places are 0.
    pub fn window(self, from: usize, size: usize) -> [i16; LONGEST_FRAME]
        requires { (from + size ≤ length self.held.now + length self.samples.now) × (size ≤ longest_frame) }
        ensures { result ≡ padded (take size (drop from (self.entry.held.now ++ self.entry.samples.now))) }
    {
        let mut out = [0i16; LONGEST_FRAME];
        let held = self.held.len();
        if from < held {
            let kept = (held - from).min(size);
            out[..kept].copy_from_slice(&self.held[from..from + kept]);
            out[kept..size].copy_from_slice(&self.samples[..size - kept]);
        } else {
            let first = from - held;
            out[..size].copy_from_slice(&self.samples[first..first + size]);
        }
        out
    }

    // The row of the frame that starts at `from`, from what the row before it left.
    pub fn row(self, s: Analysed, from: usize, before: Prev) -> Row
        requires { from + frame_length s.settings ≤ length self.held.now + length self.samples.now }
        ensures { result ≡ frame_row s.settings (take (frame_length s.settings) (drop from (self.entry.held.now ++ self.entry.samples.now))) before.lag before.correlation }
    {
        let length = s.frame_length();
        let frame = self.window(from, length);
        // field by field: neither type's crate knows the other
        let prev = Previous {
            lag: before.lag,
            correlation: before.correlation,
        };
        analysed_row(s, &frame[..length], prev)
    }
}
