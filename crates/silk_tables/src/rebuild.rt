// RFC 6716, section 4.2.7.6.1: the lags that a lag index and a contour index stand for, in that text's sequence. Nothing here is ported: the source assembles its lags
// in pitch_analysis.rs, and `specs/RebuildLaws.antt` shows that they are these.
// They take plain numbers and no settings, since `rebuilt_lag` answers for any; `Pair` (pitch_table) keeps what was found.
ghost use Rattle.std.specs.Prelude.{◌≡◌, [], ◌∷◌, ◌⊎◌, ◌<◌, ◌≤◌, nat_abs};
ghost use Rattle.answers.specs.Answer.{answer_numbers};
ghost use Rattle.silk_tables.specs.Rebuild.{lag_max, book_entries, book, rebuilt, Coded, carried, rebuild_call, rebuilt_numbers, rebuilt_number};

use crate::{Codebook, PE_MAX_LAG_MS, SILK_PE_MAX_COMPLEX};
use pitch_settings::Settings;

// The greatest lag that a pair can stand for.
fn lag_max(fs_khz: usize) -> usize
    requires { (8 ≤ fs_khz) × (fs_khz ≤ 16) }
    ensures { result ≡ lag_max fs_khz }
{
    PE_MAX_LAG_MS * fs_khz
}

// The codebook's offset for subframe k. Stage 3's whole book is in use at the greatest complexity.
fn codebook_offset(fs_khz: usize, nb_subfr: usize, k: usize, contour_index: usize) -> i32
    requires { ((nb_subfr ≡ 2) ⊎ (nb_subfr ≡ 4)) × ((k < nb_subfr) × (contour_index < book_entries fs_khz nb_subfr)) }
    ensures { result ≡ book fs_khz nb_subfr k contour_index }
{
    if fs_khz == 8 {
        crate::lag_cb_stage2(nb_subfr, k, contour_index)
    } else {
        let book = Codebook {
            nb: nb_subfr,
            complexity: SILK_PE_MAX_COMPLEX,
        };
        book.lag_cb(k, contour_index)
    }
}

// The lag of subframe k: the primary lag, then the codebook's offset, then the hold between the least and the greatest lag.
pub fn lag_of(fs_khz: usize, nb_subfr: usize, lag_index: i32, contour_index: usize, k: usize) -> i32
    requires { Coded fs_khz nb_subfr lag_index contour_index k }
    ensures { result ≡ rebuilt fs_khz nb_subfr lag_index contour_index k }
{
    let least = crate::least_lag(fs_khz) as i32;
    let greatest = lag_max(fs_khz) as i32;
    let primary = least + lag_index;
    let lag = primary + codebook_offset(fs_khz, nb_subfr, k, contour_index);
    lag.clamp(least, greatest)
}

// Whether the index is one of the rate's and the contour is one in use.
pub fn pair_carried(
    fs_khz: usize,
    nb_subfr: usize,
    complexity: usize,
    lag_index: i32,
    contour_index: i32,
) -> bool
    requires { complexity < 3 }
    ensures { result ≡ carried fs_khz nb_subfr complexity lag_index contour_index }
{
    let greatest = crate::greatest_index(fs_khz) as i32;
    let contours = crate::contours_in_use(fs_khz, nb_subfr, complexity) as i32;
    lag_index >= 0 && lag_index <= greatest && contour_index >= 0 && contour_index < contours
}

// The lag of subframe k for any numbers: a lag where a sheet can hold the settings, the frame has a subframe k and the pair is carried; else none.
pub fn rebuilt_lag(
    fs_khz: usize,
    nb_subfr: usize,
    complexity: usize,
    lag_index: i32,
    contour_index: i32,
    k: usize,
) -> Option<i32>
    ensures answer { result ≡ rebuild_call fs_khz nb_subfr complexity lag_index contour_index k }
    ensures numbers { rebuilt_numbers result ≡ answer_numbers (rebuilt_number fs_khz nb_subfr complexity lag_index contour_index k) (rebuilt fs_khz nb_subfr lag_index (nat_abs contour_index) k ∷ []) }
{
    let settings = Settings {
        rate: fs_khz,
        nb: nb_subfr,
        complexity,
        thres1: 0,
        thres2: 0,
    };
    let Ok(_) = settings.held() else {
        return None;
    };
    if k >= nb_subfr {
        return None;
    }
    if !pair_carried(fs_khz, nb_subfr, complexity, lag_index, contour_index) {
        return None;
    }
    Some(lag_of(fs_khz, nb_subfr, lag_index, contour_index as usize, k))
}
