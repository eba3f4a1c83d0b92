// What the bytes of a program's input say: settings and samples, little-endian.
#![tactic(auto)]

ghost use Rattle.std.specs.Prelude.{◌≡◌, ◌+◌, ◌*◌, ◌≤◌, length};
ghost use Rattle.pitch_input.specs.Input.{head_size, input_settings, sample_at, samples_from};

use pitch_settings::Settings;
use sheet_bytes::{i32_at, u16_at};

// The bytes of the settings, with which an input begins.
pub const HEAD_SIZE: usize = 11;

// The settings in the first bytes: rate, subframe count and complexity, a byte each, and the two thresholds, four signed bytes each.
pub fn settings_in(bytes: &[u8]) -> Settings
    requires { head_size ≤ length bytes.now }
    ensures { result ≡ input_settings bytes.now }
{
    Settings {
        rate: bytes[0] as usize,
        nb: bytes[1] as usize,
        complexity: bytes[2] as usize,
        thres1: i32_at(bytes, 3),
        thres2: i32_at(bytes, 7),
    }
}

// The signed number in the two bytes from `at` on, as a sample has them.
pub fn sample_at(bytes: &[u8], at: usize) -> i16
    requires { at + 2 ≤ length bytes.now }
    ensures { result ≡ sample_at bytes.now at }
{
    u16_at(bytes, at).cast_signed()
}

// Fills out with samples, from the byte `at` on.
pub fn load_samples(bytes: &[u8], at: usize, out: &mut [i16])
    requires { at + 2 * length out.old ≤ length bytes.now }
    ensures { out.new ≡ samples_from bytes.now at (length out.old) }
{
    for (i, sample) in out.iter_mut().enumerate() {
        *sample = sample_at(bytes, at + 2 * i);
    }
}
