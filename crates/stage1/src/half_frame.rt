// A half-frame at 4 kHz: its correlation with the samples before it, lag by lag.
#![tactic(auto)]

ghost use Rattle.std.specs.Prelude.{◌≡◌, ℕ, ◌+◌, ◌-◌, ◌*◌, ◌<◌, ◌≤◌, length};
ghost use Rattle.lists.specs.Fill.{tabulate};
ghost use Rattle.stage1.specs.Stage1.{cross1, divisor1};
ghost use Rattle.stage1.specs.Steps.{quotients, half_frame};

use crate::{CSTRIDE_4KHZ, MAX_LAG_4KHZ, MIN_LAG_4KHZ};
use silk_macros::{silk_div32_varq, silk_smulbb};
use silk_sigproc::{energy_of_40, silk_pitch_xcorr, slide};
use zint::{as_i16, wrapping_add_i32};

// Samples of a subframe at 4 and at 8 kHz.
const SF_LENGTH_4KHZ: usize = 20;

const SF_LENGTH_8KHZ: usize = 40;

// The quotients' low 16 bits, by lag; none where a divisor is zero. By the lag's place: one of the three arrays runs backwards, of what an adapter over `iter_mut` writes a proof
// knows nothing, and `try_from_fn` doesn't say that the closure it called was this one.
fn quotients(xcorr32: &[i32; 65], normalizers: &[i32; 65]) -> Option<[i16; 65]>
    ensures { result ≡ quotients xcorr32.now normalizers.now }
{
    let mut c = [0i16; CSTRIDE_4KHZ];
    for i in 0..CSTRIDE_4KHZ {
        let cross_corr = xcorr32[MAX_LAG_4KHZ - MIN_LAG_4KHZ - i];
        let q = silk_div32_varq(cross_corr, normalizers[i], 14)?;
        c[i] = as_i16(q);
    }
    Some(c)
}

// Half-frame h of the frame: 0 or 1, and it ends within the frame.
#[derive(Clone, Copy)]
pub(crate) struct HalfFrame<'a> {
    pub(crate) frame_4khz: &'a [i16],
    pub(crate) h: usize,
    pub(crate) ghost first_or_second: { h < 2 },
    pub(crate) ghost within: { 120 + 40 * h ≤ length frame_4khz.now },
}

impl HalfFrame<'_> {
    // Where the half-frame starts.
    fn target(self) -> usize
        ensures { result ≡ 80 + 40 * self.entry.h }
    {
        (SF_LENGTH_4KHZ << 2) + SF_LENGTH_8KHZ * self.h
    }

    // The cross-correlations; the kernel counts the lags from the last.
    fn cross_correlations(self) -> [i32; 65]
        ensures { result ≡ tabulate (λ (i : ℕ). cross1 self.entry.frame_4khz.now self.entry.h (72 - i)) 65 }
    {
        let mut xcorr32 = [0i32; CSTRIDE_4KHZ];
        let target = self.target();
        silk_pitch_xcorr(
            &self.frame_4khz[target..],
            &self.frame_4khz[target - MAX_LAG_4KHZ..],
            &mut xcorr32,
            SF_LENGTH_8KHZ,
            CSTRIDE_4KHZ,
        );
        xcorr32
    }

    // The normaliser at the first lag.
    fn first_normalizer(self) -> i32
        ensures { result ≡ divisor1 self.entry.frame_4khz.now self.entry.h 8 }
    {
        let target = self.target();
        let mut normalizer = energy_of_40(self.frame_4khz, target);
        normalizer = wrapping_add_i32(
            normalizer,
            energy_of_40(self.frame_4khz, target - MIN_LAG_4KHZ),
        );
        wrapping_add_i32(normalizer, silk_smulbb(SF_LENGTH_8KHZ as i32, 4000))
    }

    // The normalisers. By the lag's place, from which both samples' places follow: by iterators two parts of the frame would run backwards, and the array would still be written
    // by its place.
    fn normalizers(self) -> [i32; 65]
        ensures { result ≡ tabulate (λ (i : ℕ). divisor1 self.entry.frame_4khz.now self.entry.h (8 + i)) 65 }
    {
        let mut normalizers = [0i32; CSTRIDE_4KHZ];
        let mut normalizer = self.first_normalizer();
        normalizers[0] = normalizer;
        let basis = self.target() - MIN_LAG_4KHZ;
        for i in 1..CSTRIDE_4KHZ {
            let come = self.frame_4khz[basis - i];
            let gone = self.frame_4khz[basis - i + SF_LENGTH_8KHZ];
            normalizer = slide(normalizer, gone, come);
            normalizers[i] = normalizer;
        }
        normalizers
    }

    // The correlations, by lag; none where a divisor is zero.
    pub(crate) fn correlations(self) -> Option<[i16; 65]>
        ensures { result ≡ half_frame self.entry.frame_4khz.now self.entry.h }
    {
        quotients(&self.cross_correlations(), &self.normalizers())
    }
}
