// Runs the word arithmetic on a list of cases from standard input and prints, for each operation, how many cases it answers as the source does.
// A case is five signed numbers of 4 bytes each, little-endian: the operation, a, b, c and what the source answers. A case outside of what an operation requires agrees with nothing.
#![tactic(auto)]

ghost use Rattle.std.specs.Prelude.{true, ◌≡◌, pos};
ghost use Rattle.std.specs.Int.Signed.{quot_z};
ghost use Rattle.std.specs.Int.{w32};
ghost use Rattle.std.proofs.Common.{SFits};

use cases_io::{i32_at, over_list, replay};
use silk_macros::{
    silk_add_sat16, silk_add_sat32, silk_clz_frac, silk_clz32, silk_div32, silk_div32_16,
    silk_div32_varq, silk_limit_32, silk_lin2log, silk_lshift, silk_lshift_sat32, silk_mul,
    silk_rshift, silk_rshift_round, silk_sat16, silk_smlabb, silk_smlawb, silk_smmul, silk_smulbb,
    silk_smulwb,
};
use std::io;
use std::io::Write;
use zint::{
    as_i16, bits_u32, rotate_right_i32, wrapping_add_i32, wrapping_mul_i32, wrapping_sub_i32,
};

// A case: the operation's number, its arguments, and what the source answers.
#[derive(Clone, Copy)]
struct Case {
    operation: i32,
    a: i32,
    b: i32,
    c: i32,
    said: i32,
}

fn case_of(bytes: &[u8]) -> Case {
    Case {
        operation: i32_at(bytes, 0),
        a: i32_at(bytes, 4),
        b: i32_at(bytes, 8),
        c: i32_at(bytes, 12),
        said: i32_at(bytes, 16),
    }
}

// An operation with a `requires` is called where the case meets it.
fn lshift_sat32_agrees(t: Case) -> bool {
    if t.b < 0 {
        return false;
    }
    if t.b >= 64 {
        return false;
    }
    silk_lshift_sat32(t.a, t.b) == t.said
}

// Whether b divides a to a number of 32 bits.
fn divides(a: i32, b: i32) -> bool
    ensures { result ≡ true → (b ≡ pos 0 → ⊥) × SFits w32 (quot_z a b) }
{
    if b == 0 {
        return false;
    }
    if b == -1 {
        return a != i32::MIN;
    }
    true
}

// Whether the quotient is this one, or none where the divisor is 0.
fn varq_agrees(t: Case, said: Option<i32>) -> bool {
    if t.c < 0 {
        return false;
    }
    if t.c >= 60 {
        return false;
    }
    silk_div32_varq(t.a, t.b, t.c) == said
}

// Both numbers stand in one: how many zeros lead, times 256, and the fraction.
fn clz_frac_agrees(t: Case) -> bool {
    let c = silk_clz_frac(t.a);
    c.lz == bits_u32(t.said) / 256 && bits_u32(c.frac_q7) == bits_u32(t.said) % 256
}

// Counts the cases of one operation and prints the line. An operation is its number here: an enum of the 25 would name each three times more, at its number, its name and what it runs, which
// `replay_all` has in one line each.
fn line<W: Write, A: Fn(Case) -> bool>(
    output: &mut W,
    list: &[u8],
    operation: i32,
    name: &[u8],
    agrees: A,
) -> io::Result<()>
    requires { A.IsAlwaysCallable agrees }
{
    replay(
        output,
        name,
        list,
        |_| 20,
        |bytes| (i32_at(bytes, 0) == operation).then(|| agrees(case_of(bytes))),
    )
}

// A line for each operation, in the order of their numbers.
fn replay_all<W: Write>(o: &mut W, list: &[u8]) -> io::Result<()> {
    line(
        o,
        list,
        0,
        b"silk_smulwb",
        |t| silk_smulwb(t.a, t.b) == t.said,
    )?;
    line(
        o,
        list,
        1,
        b"silk_smlawb",
        |t| silk_smlawb(t.a, t.b, t.c) == t.said,
    )?;
    line(
        o,
        list,
        2,
        b"silk_smulbb",
        |t| silk_smulbb(t.a, t.b) == t.said,
    )?;
    line(
        o,
        list,
        3,
        b"silk_smmul",
        |t| silk_smmul(t.a, t.b) == t.said,
    )?;
    line(o, list, 4, b"silk_mul", |t| silk_mul(t.a, t.b) == t.said)?;
    line(
        o,
        list,
        5,
        b"silk_rshift",
        |t| silk_rshift(t.a, bits_u32(t.b)) == t.said,
    )?;
    line(
        o,
        list,
        6,
        b"silk_lshift",
        |t| silk_lshift(t.a, bits_u32(t.b)) == t.said,
    )?;
    line(
        o,
        list,
        7,
        b"silk_rshift_round",
        |t| silk_rshift_round(t.a, t.b) == t.said,
    )?;
    line(o, list, 8, b"silk_sat16", |t| silk_sat16(t.a) == t.said)?;
    line(
        o,
        list,
        9,
        b"silk_add_sat16",
        |t| silk_add_sat16(as_i16(t.a), as_i16(t.b)) as i32 == t.said,
    )?;
    line(
        o,
        list,
        10,
        b"silk_add_sat32",
        |t| silk_add_sat32(t.a, t.b) == t.said,
    )?;
    line(o, list, 11, b"silk_lshift_sat32", lshift_sat32_agrees)?;
    line(
        o,
        list,
        12,
        b"silk_limit_32",
        |t| silk_limit_32(t.a, t.b, t.c) == t.said,
    )?;
    line(
        o,
        list,
        13,
        b"silk_div32",
        |t| divides(t.a, t.b) && silk_div32(t.a, t.b) == t.said,
    )?;
    line(
        o,
        list,
        14,
        b"silk_div32_16",
        |t| divides(t.a, t.b) && silk_div32_16(t.a, t.b) == t.said,
    )?;
    line(
        o,
        list,
        15,
        b"silk_div32_varq",
        |t| varq_agrees(t, Some(t.said)),
    )?;
    line(
        o,
        list,
        16,
        b"silk_div32_varq by zero",
        |t| varq_agrees(t, None),
    )?;
    line(
        o,
        list,
        17,
        b"silk_clz32",
        |t| silk_clz32(t.a) == bits_u32(t.said),
    )?;
    line(o, list, 18, b"silk_clz_frac", clz_frac_agrees)?;
    line(
        o,
        list,
        19,
        b"silk_lin2log",
        |t| silk_lin2log(t.a) == t.said,
    )?;
    line(
        o,
        list,
        20,
        b"wrapping_add",
        |t| wrapping_add_i32(t.a, t.b) == t.said,
    )?;
    line(
        o,
        list,
        21,
        b"wrapping_sub",
        |t| wrapping_sub_i32(t.a, t.b) == t.said,
    )?;
    line(
        o,
        list,
        22,
        b"wrapping_mul",
        |t| wrapping_mul_i32(t.a, t.b) == t.said,
    )?;
    line(
        o,
        list,
        23,
        b"rotate_right",
        |t| rotate_right_i32(t.a, bits_u32(t.b)) == t.said,
    )?;
    line(
        o,
        list,
        24,
        b"silk_smlabb",
        |t| silk_smlabb(t.a, t.b, t.c) == t.said,
    )
}

// A main is its program's list and what is done with it: `over_list` has all that the replaying programs share.
fn main(rt: HostRuntime) -> io::Result<()> {
    over_list(&mut rt.stdin(), |list| replay_all(&mut rt.stdout(), list))
}
