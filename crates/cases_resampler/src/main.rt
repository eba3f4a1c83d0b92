// Runs the decimators on a list of cases from standard input and prints, for each, how many cases it answers as the source does.
// A case is its kind (0 down2, 1 private_ar2, 2 down2_3) and the number n of samples (4 bytes each), the states (4 bytes each: 2, 2, 6), for private_ar2 two coefficients (2 bytes
// each), n samples (2 bytes each), then what the source leaves: the outputs (down2 n / 2 and down2_3 2 (n / 3) of 2 bytes each, private_ar2 n of 4 bytes each) and the states.
// All are little-endian.
#![tactic(auto)]

ghost use Rattle.std.specs.Prelude.{◌<◌};

use cases_io::{load, over_list, replay, same, u16_at};
use silk_resampler::{
    silk_resampler_down2, silk_resampler_down2_3, silk_resampler_private_ar2, source_filter,
};
use std::io;
use std::io::Write;

// The decimators, which a case's kind names.
#[derive(Clone, Copy, PartialEq)]
enum Decimator {
    Down2,
    PrivateAr2,
    Down2By3,
}

// The decimator of a case, or none where no decimator has its kind. Kinds and numbers of samples are below 65536, so their first two bytes tell them. The numbers are the list's own, so a match says which is which.
fn decimator_of(case: &[u8]) -> Option<Decimator> {
    match u16_at(case, 0) {
        0 => Some(Decimator::Down2),
        1 => Some(Decimator::PrivateAr2),
        2 => Some(Decimator::Down2By3),
        _ => None,
    }
}

// The number of samples of a case.
fn samples(case: &[u8]) -> usize
    ensures { result < 65536 }
{
    u16_at(case, 4) as usize
}

fn down2_agrees(case: &[u8]) -> bool {
    let n = samples(case);
    if n > 640 {
        return false;
    }
    let outputs = 16 + 2 * n;
    let after = outputs + 2 * (n / 2);
    let mut s = [0i32; 2];
    let mut input = [0i16; 640];
    let mut out = [0i16; 320];
    load(case, 8, &mut s);
    load(case, 16, &mut input);
    silk_resampler_down2(&mut s, &mut out, &input, n);
    same(case, outputs, &out[..n / 2]) && same(case, after, &s)
}

fn private_ar2_agrees(case: &[u8]) -> bool {
    let n = samples(case);
    if n > 480 {
        return false;
    }
    let outputs = 20 + 2 * n;
    let after = outputs + 4 * n;
    let mut s = [0i32; 2];
    let mut a = [0i16; 2];
    let mut input = [0i16; 480];
    let mut out = [0i32; 480];
    load(case, 8, &mut s);
    load(case, 16, &mut a);
    load(case, 20, &mut input);
    silk_resampler_private_ar2(&mut s, &mut out, &input, &a, n, source_filter());
    same(case, outputs, &out[..n]) && same(case, after, &s)
}

fn down2_3_agrees(case: &[u8]) -> bool {
    let n = samples(case);
    if n > 480 {
        return false;
    }
    let outputs = 32 + 2 * n;
    let after = outputs + 4 * (n / 3);
    let mut s = [0i32; 6];
    let mut input = [0i16; 480];
    let mut out = [0i16; 320];
    load(case, 8, &mut s);
    load(case, 32, &mut input);
    silk_resampler_down2_3(&mut s, &mut out, &input, n, source_filter());
    same(case, outputs, &out[..2 * (n / 3)]) && same(case, after, &s)
}

// Whether the decimator answers the case as the source does.
fn agrees(decimator: Decimator, case: &[u8]) -> bool {
    match decimator {
        Decimator::Down2 => down2_agrees(case),
        Decimator::PrivateAr2 => private_ar2_agrees(case),
        Decimator::Down2By3 => down2_3_agrees(case),
    }
}

// The bytes of a case; where no decimator has its kind, as many as for the last.
fn size(case: &[u8]) -> usize
    ensures { 0 < result }
{
    let n = samples(case);
    match decimator_of(case) {
        Some(Decimator::Down2) => 24 + 2 * n + 2 * (n / 2),
        Some(Decimator::PrivateAr2) => 28 + 6 * n,
        _ => 56 + 2 * n + 4 * (n / 3),
    }
}

// Counts the cases of one decimator and prints the line.
// A function of the program's own: one for every kind of case would take the finder of the kind, the answer and the size besides, for a closure of one line.
fn replay_decimator<W: Write>(
    output: &mut W,
    list: &[u8],
    decimator: Decimator,
    name: &[u8],
) -> io::Result<()> {
    replay(output, name, list, size, |case| {
        (decimator_of(case) == Some(decimator)).then(|| agrees(decimator, case))
    })
}

// A line for each decimator.
fn replay_all<W: Write>(output: &mut W, list: &[u8]) -> io::Result<()> {
    replay_decimator(output, list, Decimator::Down2, b"silk_resampler_down2")?;
    replay_decimator(
        output,
        list,
        Decimator::PrivateAr2,
        b"silk_resampler_private_ar2",
    )?;
    replay_decimator(output, list, Decimator::Down2By3, b"silk_resampler_down2_3")
}

// A main is its program's list and what is done with it: `over_list` has all that the replaying programs share.
fn main(rt: HostRuntime) -> io::Result<()> {
    over_list(&mut rt.stdin(), |list| replay_all(&mut rt.stdout(), list))
}
