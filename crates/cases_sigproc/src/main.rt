// Runs the kernels on a list of cases from standard input and prints, group by group, how many of them they answer as the source does.
// A case is its kind (4 bytes), then for kind 0 (silk_sum_sqr_shift) a length, the samples, energy and shift; for kind 1 (silk_inner_prod_aligned) a length, x, y and the sum;
// for kind 2 (silk_pitch_xcorr) a length, the number of lags, the length of y, x, y and a sum for each lag. Samples are 2 bytes and all else 4, little-endian; no length reaches
// 65536, so that the low 2 bytes tell it. Where y is too short for a lag the source sums what is there: these cases are a group of their own, with zeros after y.
#![tactic(auto)]

ghost use Rattle.std.specs.Prelude.{◌≡◌, ◌≤◌, ◌<◌, length};

use cases_io::{i32_at, load, over_list, replay, same, u16_at};
use silk_sigproc::{silk_inner_prod_aligned, silk_pitch_xcorr, silk_sum_sqr_shift};
use std::io;
use std::io::Write;

// The number of 4 bytes at `at`.
fn number(case: &[u8], at: usize) -> usize
    ensures { result < 65536 }
{
    u16_at(case, at) as usize
}

fn sum_sqr_shift_agrees(case: &[u8]) -> bool {
    let n = number(case, 4);
    if n == 0 {
        return false;
    }
    if n > 640 {
        return false;
    }
    let mut x = [0i16; 640];
    load(case, 8, &mut x);
    let sum = silk_sum_sqr_shift(&x, n);
    let energy = i32_at(case, 8 + 2 * n);
    let shift = i32_at(case, 12 + 2 * n);
    sum.energy as i32 == energy && sum.shift as i32 == shift
}

fn inner_prod_agrees(case: &[u8]) -> bool {
    let n = number(case, 4);
    if n > 320 {
        return false;
    }
    let mut x = [0i16; 320];
    let mut y = [0i16; 320];
    load(case, 8, &mut x);
    load(case, 8 + 2 * n, &mut y);
    silk_inner_prod_aligned(&x, &y, n) == i32_at(case, 8 + 4 * n)
}

fn pitch_xcorr_agrees(case: &[u8]) -> bool {
    let n = number(case, 4);
    let lags = number(case, 8);
    let y_len = number(case, 12);
    if n > 80 {
        return false;
    }
    if lags > 131 {
        return false;
    }
    if y_len > 210 {
        return false;
    }
    let mut x = [0i16; 80];
    let mut y = [0i16; 210];
    let mut sums = [0i32; 131];
    let samples = 16 + 2 * n;
    load(case, 16, &mut x);
    load(case, samples, &mut y[..y_len]);
    silk_pitch_xcorr(&x, &y, &mut sums, n, lags);
    same(case, samples + 2 * y_len, &sums[..lags])
}

// The groups of cases: one for each kernel, and one where y is too short for a lag.
#[derive(Clone, Copy, PartialEq)]
enum Group {
    SumSqrShift,
    InnerProd,
    PitchXcorr,
    PaddedXcorr,
}

// The group of a case, or none where no kernel has its kind. Kind 3 is counted with those of kind 2 whose y is too short for a lag.
fn group_of(case: &[u8]) -> Option<Group> {
    match number(case, 0) {
        0 => Some(Group::SumSqrShift),
        1 => Some(Group::InnerProd),
        2 if number(case, 4) + number(case, 8) <= number(case, 12) + 1 => Some(Group::PitchXcorr),
        2 | 3 => Some(Group::PaddedXcorr),
        _ => None,
    }
}

// Whether the kernel of this group answers the case as the source does.
fn agrees(group: Group, case: &[u8]) -> bool {
    match group {
        Group::SumSqrShift => sum_sqr_shift_agrees(case),
        Group::InnerProd => inner_prod_agrees(case),
        Group::PitchXcorr | Group::PaddedXcorr => pitch_xcorr_agrees(case),
    }
}

// The bytes of a case; where no kernel has its kind, as many as for the last.
fn size(case: &[u8]) -> usize {
    let n = number(case, 4);
    match group_of(case) {
        Some(Group::SumSqrShift) => 16 + 2 * n,
        Some(Group::InnerProd) => 12 + 4 * n,
        _ => 16 + 2 * n + 4 * number(case, 8) + 2 * number(case, 12),
    }
}

// Replays the cases of one group.
// A function of the program's own: one for every kind of case would take the finder of the kind, the answer and the size besides, for a closure of one line.
fn replay_group<W: Write>(
    output: &mut W,
    list: &[u8],
    group: Group,
    name: &[u8],
) -> io::Result<()> {
    replay(output, name, list, size, |case| {
        (group_of(case) == Some(group)).then(|| agrees(group, case))
    })
}

// A line for each group.
fn replay_all<W: Write>(output: &mut W, list: &[u8]) -> io::Result<()> {
    let padded = b"silk_pitch_xcorr, y followed by zeros";
    replay_group(output, list, Group::SumSqrShift, b"silk_sum_sqr_shift")?;
    replay_group(output, list, Group::InnerProd, b"silk_inner_prod_aligned")?;
    replay_group(output, list, Group::PitchXcorr, b"silk_pitch_xcorr")?;
    replay_group(output, list, Group::PaddedXcorr, padded)
}

// A main is its program's list and what is done with it: `over_list` has all that the replaying programs share.
fn main(rt: HostRuntime) -> io::Result<()> {
    over_list(&mut rt.stdin(), |list| replay_all(&mut rt.stdout(), list))
}
