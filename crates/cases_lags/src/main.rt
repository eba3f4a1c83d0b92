// Rebuilds the lags of every pair there is and prints how many are those that the source assembles: at each rate and subframe count, every complexity, lag index and
// contour in use. Standard input is the source's list in that order: rate, subframes, complexity (a byte each), index (2 bytes), contour (a byte), then a lag for each
// subframe (2 bytes each), little-endian.
#![tactic(auto)]

ghost use Rattle.std.specs.Prelude.{◌<◌, ◌≤◌};

use cases_io::{Tally, byte_at, over_list, skip, u16_at};
use silk_tables::rebuild::rebuilt_lag;
use silk_tables::{contours_in_use, greatest_index};
use std::io;
use std::io::Write;

// A rate, a subframe count and a complexity.
// The settings alone: index and contour go beside them, since the loops over them nest in this order.
#[derive(Clone, Copy)]
struct LagSettings {
    fs_khz: usize,
    nb_subfr: usize,
    complexity: usize,
}

// The place in the list that comes next, and the count so far.
#[derive(Clone, Copy)]
struct Run {
    at: usize,
    tally: Tally,
}

// Whether the record at `at` is of these settings and this pair.
fn is_of(bytes: &[u8], at: usize, s: LagSettings, index: usize, contour: usize) -> bool {
    byte_at(bytes, at) as usize == s.fs_khz
        && byte_at(bytes, skip(bytes, at, 1)) as usize == s.nb_subfr
        && byte_at(bytes, skip(bytes, at, 2)) as usize == s.complexity
        && u16_at(bytes, skip(bytes, at, 3)) as usize == index
        && byte_at(bytes, skip(bytes, at, 5)) as usize == contour
}

// Whether the lag of subframe k is number k of those from `at` on.
fn lag_agrees(bytes: &[u8], at: usize, s: LagSettings, index: i32, contour: i32, k: usize) -> bool {
    let place = skip(bytes, at, k.saturating_mul(2));
    let lag = rebuilt_lag(s.fs_khz, s.nb_subfr, s.complexity, index, contour, k);
    lag.is_some_and(|lag| lag == u16_at(bytes, place) as i32)
}

// Whether the lags of all subframes are those from `at` on.
fn lags_agree(bytes: &[u8], at: usize, s: LagSettings, index: i32, contour: i32) -> bool {
    (0..s.nb_subfr).all(|k| lag_agrees(bytes, at, s, index, contour, k))
}

// One pair: its record, which has 6 bytes and 2 for each lag, and the place after it.
fn pair(bytes: &[u8], run: Run, s: LagSettings, index: usize, contour: usize) -> Run
    requires { (index ≤ 256) × (contour < 34) }
{
    let record = &bytes[skip(bytes, run.at, 0)..];
    let agrees = is_of(record, 0, s, index, contour)
        && lags_agree(record, 6, s, index as i32, contour as i32);
    let size = if s.nb_subfr == 2 { 10 } else { 14 };
    Run {
        at: skip(bytes, run.at, size),
        tally: run.tally.counted(agrees),
    }
}

// All contours in use with one index.
fn all_contours(bytes: &[u8], run: Run, s: LagSettings, index: usize) -> Run
    requires { (s.complexity < 3) × (index ≤ 256) }
{
    let mut now = run;
    // Here and below the numbers of a range are the matter: each contour, index and complexity there is.
    for contour in 0..contours_in_use(s.fs_khz, s.nb_subfr, s.complexity) {
        now = pair(bytes, now, s, index, contour);
    }
    now
}

// All indices of the rate.
fn all_indices(bytes: &[u8], run: Run, s: LagSettings) -> Run
    requires { s.complexity < 3 }
{
    let mut now = run;
    for index in 0..greatest_index(s.fs_khz) + 1 {
        now = all_contours(bytes, now, s, index);
    }
    now
}

// All complexities at one rate and subframe count, with a line for them; the place after them.
fn all_complexities<W: Write>(
    output: &mut W,
    bytes: &[u8],
    at: usize,
    fs_khz: usize,
    nb_subfr: usize,
    name: &[u8],
) -> io::Result<usize> {
    let mut now = Run {
        at,
        tally: Tally::none(),
    };
    for complexity in 0..3 {
        let s = LagSettings {
            fs_khz,
            nb_subfr,
            complexity,
        };
        now = all_indices(bytes, now, s);
    }
    now.tally.print(output, name)?;
    Ok(now.at)
}

fn replay<W: Write>(output: &mut W, bytes: &[u8]) -> io::Result<()> {
    let mut at = 0;
    for (fs_khz, two, four) in [
        (8, "8 kHz, 2 subframes:", "8 kHz, 4 subframes:"),
        (12, "12 kHz, 2 subframes:", "12 kHz, 4 subframes:"),
        (16, "16 kHz, 2 subframes:", "16 kHz, 4 subframes:"),
    ] {
        at = all_complexities(output, bytes, at, fs_khz, 2, two.as_bytes())?;
        at = all_complexities(output, bytes, at, fs_khz, 4, four.as_bytes())?;
    }
    Tally::none()
        .counted(at == bytes.len())
        .print(output, b"end of the list:")
}

// A main is its program's list and what is done with it: `over_list` has all that the replaying programs share.
fn main(rt: HostRuntime) -> io::Result<()> {
    over_list(&mut rt.stdin(), |list| replay(&mut rt.stdout(), list))
}
