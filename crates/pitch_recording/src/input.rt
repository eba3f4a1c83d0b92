// The input of a program that takes a recording.
ghost use Rattle.std.specs.Prelude.{◌<◌, ◌≤◌, length};
ghost use Rattle.pitch_recording.specs.Recording.{recording_bytes};

use recording_head::Head;

// An input with this head: it begins with these bytes and has `more` after them. Where there are more, these are too many for any settings.
#[derive(Clone, Copy)]
pub struct RecordedInput<'a> {
    pub head: Head,
    pub bytes: &'a [u8],
    pub more: usize,
    pub ghost full: { 0 < more → recording_bytes ≤ length bytes.now },
}
