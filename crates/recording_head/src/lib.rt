// The head of a recording: the bytes before its samples, which say the settings of its track.
#![tactic(auto)]

ghost use Rattle.std.specs.Prelude.{◌≡◌, ◌+◌, ◌≤◌, length};
ghost use Rattle.recording_head.specs.Head.{options_size, bytes_of_head, kind_of, speech_in, second_in, options_settings, head_settings, head_known};

use pitch_input::{HEAD_SIZE, sample_at, settings_in};
use sheet_bytes::i32_at;
use track_settings::{SecondThreshold, Speech, TrackSettings};

// The head with which an input begins.
#[derive(Clone, Copy)]
pub enum Head {
    // rate, subframe count and complexity, a byte each; the two thresholds, four signed bytes each
    Plain,
    // rate, subframe count, complexity and the kind of the second threshold, a byte each; the first threshold, four signed bytes; and four bytes for the second: a fixed one is signed, and one
    // from the speech has order and activity, a byte each, and the tilt, two signed bytes
    Options,
}

// The kinds of a second threshold.
#[derive(Clone, Copy)]
enum Kind {
    Fixed,
    FromSpeech,
}

// A byte that is the number of no kind.
#[derive(Clone, Copy)]
struct NoKind;

impl TryFrom<u8> for Kind {
    type Error = NoKind;

    ghost try_from_gives = { λ number kind. kind ≡ kind_of number };

    fn try_from(number: u8) -> Result<Kind, NoKind> {
        match number {
            0 => Ok(Kind::Fixed),
            1 => Ok(Kind::FromSpeech),
            _ => Err(NoKind),
        }
    }
}

// The bytes of the head that names options.
pub const OPTIONS_SIZE: usize = 12;

// The bytes of the longest head.
pub const LONGEST_HEAD: usize = OPTIONS_SIZE;

// How many bytes a head has.
pub fn head_size(head: Head) -> usize
    ensures { result ≡ bytes_of_head head }
{
    match head {
        Head::Plain => HEAD_SIZE,
        Head::Options => OPTIONS_SIZE,
    }
}

// What the thresholds are found from, in the four bytes from `at` on.
// By the place, since the definitions of a head go by places.
fn speech_in(bytes: &[u8], at: usize) -> Speech
    requires { at + 4 ≤ length bytes.now }
    ensures { result ≡ speech_in bytes.now at }
{
    Speech {
        order: bytes[at] as i32,
        activity: bytes[at + 1] as i32,
        tilt: sample_at(bytes, at + 2) as i32,
    }
}

// The second threshold of the kind with this number, in the four bytes from `at` on: a fixed one where no kind has it.
// Whether four bytes stand there is a bound of a place.
fn second_in(number: u8, bytes: &[u8], at: usize) -> SecondThreshold
    requires { at + 4 ≤ length bytes.now }
    ensures { result ≡ second_in number bytes.now at }
{
    match Kind::try_from(number).unwrap_or(Kind::Fixed) {
        Kind::Fixed => SecondThreshold::Fixed(i32_at(bytes, at)),
        Kind::FromSpeech => SecondThreshold::FromSpeech(speech_in(bytes, at)),
    }
}

// The settings in a head that names options.
fn options_settings(bytes: &[u8]) -> TrackSettings
    requires { options_size ≤ length bytes.now }
    ensures { result ≡ options_settings bytes.now }
{
    TrackSettings {
        rate: bytes[0] as usize,
        nb: bytes[1] as usize,
        complexity: bytes[2] as usize,
        thres1: i32_at(bytes, 4),
        thres2: second_in(bytes[3], bytes, 8),
    }
}

// The settings of the track, as the head at the front of the bytes names them. A kind that is not known is read as a fixed threshold.
pub fn head_settings(head: Head, bytes: &[u8]) -> TrackSettings
    requires { bytes_of_head head ≤ length bytes.now }
    ensures { result ≡ head_settings head bytes.now }
{
    match head {
        Head::Plain => TrackSettings::from(settings_in(bytes)),
        Head::Options => options_settings(bytes),
    }
}

// Whether all options that the head names are known: the kind is 0 or 1.
pub fn head_known(head: Head, bytes: &[u8]) -> bool
    requires { bytes_of_head head ≤ length bytes.now }
    ensures { result ≡ head_known head bytes.now }
{
    match head {
        Head::Plain => true,
        Head::Options => Kind::try_from(bytes[3]).is_ok(),
    }
}
