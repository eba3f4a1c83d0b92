// Stage 2's measurements at 8 kHz: the lags that stage 1's kept lags list and measure, and a subframe's correlations by lag.
// The functions are our cut of the source: `silk_pitch_analysis_core` (pitch_analysis.rs) marks the lags in its lines 292 to 331 and measures in its lines 333 to 392, all
// subframes in one array. The macros and kernels are the source's, and so are the names of constants and variables.
#![tactic(auto)]

ghost use Rattle.std.specs.Prelude.{◌≡◌, true, ◌+◌, ◌≤◌, ◌<◌, length};
ghost use Rattle.stage2_correlations.specs.Correlations.{target2};
ghost use Rattle.stage2_correlations.specs.Rows.{ratio_of, at_lag, subframe_row};

mod kept_lags;

pub use kept_lags::KeptLags;
use silk_macros::silk_div32_varq;
use silk_sigproc::{energy_of_40, silk_inner_prod_aligned, slide};
use silk_tables::PE_MIN_LAG_MS;
use zint::{as_i16, wrapping_add_i32};

// The least lag at 8 kHz that stage 2 can choose; `MAX_LAG_8KHZ` of silk_tables is the greatest.
pub const MIN_LAG_8KHZ: usize = PE_MIN_LAG_MS * 8;

// The samples of a subframe at 8 kHz.
pub const SF_LENGTH_8KHZ: usize = 40;

// The quotient where the cross-correlation is positive, at Q14 and cut to 16 bits, else 0; none by zero.
fn divide(cross_corr: i32, norm: i32) -> Option<i16>
    ensures { result ≡ ratio_of cross_corr norm }
{
    if cross_corr > 0 {
        let q = silk_div32_varq(cross_corr, norm, 14)?;
        Some(as_i16(q))
    } else {
        Some(0)
    }
}

// The correlation at the lag d of the samples from target on; none where its divisor is reached and zero.
fn correlate(frame_8khz: &[i16], target: usize, d: usize, norm: i32) -> Option<i16>
    requires { (d ≤ target) × (target + 40 ≤ length frame_8khz.now) }
    ensures { result ≡ at_lag true frame_8khz.now target d norm }
{
    let basis = target - d;
    divide(
        silk_inner_prod_aligned(&frame_8khz[target..], &frame_8khz[basis..], SF_LENGTH_8KHZ),
        norm,
    )
}

// The correlations of subframe k at the marked lags among 14 to 145 (132 places, the source's CSTRIDE_8KHZ; lag 145 can be read and is never measured), and 0 at the others.
// Where a divisor that is reached is zero, the array is the error, with 0 at each lag whose divisor is zero.
// The error has the correlations too, since all 132 were promised where a divisor is zero as well; so the loop goes on, and a flag stands beside them in it.
pub fn subframe_row(
    frame_8khz: &[i16],
    k: usize,
    marks: &[bool; 132],
) -> Result<[i16; 132], [i16; 132]>
    requires { (k < 4) × (target2 k + 40 ≤ length frame_8khz.now) }
    ensures { result ≡ subframe_row frame_8khz.now marks.now k }
{
    let target = 160 + SF_LENGTH_8KHZ * k;
    let energy_target = wrapping_add_i32(energy_of_40(frame_8khz, target), 1);
    let mut energy_basis = energy_of_40(frame_8khz, target - 14);
    let mut c_8khz = [0i16; 132];
    let mut zero = false;
    // by place: of what a `zip` with `iter_mut` writes a proof knows nothing
    for (i, &marked) in marks.iter().enumerate() {
        let norm = wrapping_add_i32(energy_target, energy_basis);
        let at = if marked {
            correlate(frame_8khz, target, 14 + i, norm)
        } else {
            Some(0)
        };
        c_8khz[i] = at.unwrap_or(0);
        if at.is_none() {
            zero = true;
        }
        let basis = target - 15 - i;
        energy_basis = slide(
            energy_basis,
            frame_8khz[basis + SF_LENGTH_8KHZ],
            frame_8khz[basis],
        );
    }
    if zero { Err(c_8khz) } else { Ok(c_8khz) }
}
