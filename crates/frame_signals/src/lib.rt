// The signals that the stages read: the working frame, and its forms at 8 and 4 kHz.
// The functions are our cut of the source: `silk_pitch_analysis_core` (pitch_analysis.rs) does all this in its lines 138 to 199. The kernels and decimators are the source's.
#![tactic(auto)]

ghost use Rattle.std.specs.Prelude.{◌≡◌, ◌*◌, ◌/◌, ◌^◌, ◌≤◌, ◌<◌, length, take};
ghost use Rattle.lists.specs.Fill.{filled, overwritten};
ghost use Rattle.lists.specs.Signal.{sample};
ghost use Rattle.silk_resampler.specs.Down2.{down2};
ghost use Rattle.silk_resampler.specs.Down23.{filter_numbers, down2_3};
ghost use Rattle.frame_signals.specs.Scale.{down_shift, shifted_at, moved_count, holder};
ghost use Rattle.frame_signals.specs.Signals.{down_to_8khz, two_tap, down_to_4khz};

use silk_macros::silk_add_sat16;
use silk_resampler::{Filter, silk_resampler_down2, silk_resampler_down2_3};
use silk_sigproc::{bits_over, silk_sum_sqr_shift};

// By how many bits the samples shift right.
pub fn frame_shift(frame: &[i16]) -> u32
    requires { (0 < length frame.now) × (length frame.now < 2 ^ 28) }
    ensures { (result ≡ down_shift frame.now) × (result < 16) }
{
    let sum = silk_sum_sqr_shift(frame, frame.len());
    (bits_over(sum.energy, sum.shift) + 1) / 2
}

// The samples, shifted right, in the first places of the scratch; without a shift the scratch stays as it is.
// By index: of what a `zip` with `iter_mut` writes a proof knows nothing.
pub fn scale_into(frame: &[i16], scratch: &mut [i16], shift: u32)
    requires { (length frame.now ≤ length scratch.old) × (shift < 16) }
    ensures { scratch.new ≡ filled (shifted_at frame.now shift) (moved_count shift (length frame.now)) scratch.old }
{
    let count = if shift == 0 { 0 } else { frame.len() };
    for i in 0..count {
        scratch[i] = frame[i] >> shift;
    }
}

// The working frame: the frame itself, or where there is a shift as many samples of the scratch.
pub fn working_frame<'a>(frame: &'a [i16], scratch: &'a [i16], shift: u32) -> &'a [i16]
    requires { length frame.now ≤ length scratch.now }
    ensures { result.now ≡ take (length frame.now) (holder shift frame.now scratch.now) }
{
    if shift == 0 {
        return frame;
    }
    &scratch[..frame.len()]
}

// Half the rate, from states of 0.
fn halve_into(frame: &[i16], out: &mut [i16])
    requires { length frame.now / 2 ≤ length out.old }
    ensures { out.new ≡ overwritten (down2 frame.now) out.old }
{
    let mut filt_state = [0i32; 2];
    silk_resampler_down2(&mut filt_state, out, frame, frame.len());
}

// Two thirds of the rate by a filter, from states of 0.
fn two_thirds_into(frame: &[i16], out: &mut [i16], filter: Filter)
    requires { (2 * (length frame.now / 3) ≤ length out.old) × (length frame.now ≤ 480) }
    ensures { out.new ≡ overwritten (down2_3 (filter_numbers filter) frame.now) out.old }
{
    let mut filt_state = [0i32; 6];
    silk_resampler_down2_3(&mut filt_state, out, frame, frame.len(), filter);
}

// The working frame at 8 kHz, in the first places of out, at 12 kHz by a filter; at 8 kHz it is a copy.
// The rate stays a number: lags and lengths are multiples of it. Any other counts as 8.
pub fn frame_8khz(frame: &[i16], out: &mut [i16], fs_khz: usize, filter: Filter)
    requires { (length (down_to_8khz (filter_numbers filter) fs_khz frame.now) ≤ length out.old) × (fs_khz ≡ 12 → length frame.now ≤ 480) }
    ensures { out.new ≡ overwritten (down_to_8khz (filter_numbers filter) fs_khz frame.now) out.old }
{
    if fs_khz == 16 {
        halve_into(frame, out);
    } else if fs_khz == 12 {
        two_thirds_into(frame, out, filter);
    } else {
        out[..frame.len()].copy_from_slice(frame);
    }
}

// Each sample with the one before it, in place. From the first up, where the source goes from the last down: the sample before is carried along.
fn two_tap_sum(x: &mut [i16])
    ensures { x.new ≡ filled (two_tap (sample x.old)) (length x.old) x.old }
{
    let mut before = 0;
    for place in x.iter_mut() {
        let sample = *place;
        *place = silk_add_sat16(sample, before);
        before = sample;
    }
}

// The frame of 8 kHz at 4 kHz, in the first places of out.
pub fn frame_4khz(frame: &[i16], out: &mut [i16])
    requires { length frame.now / 2 ≤ length out.old }
    ensures { out.new ≡ overwritten (down_to_4khz frame.now) out.old }
{
    halve_into(frame, out);
    two_tap_sum(&mut out[..frame.len() / 2]);
}
