// The decimators of resampler.rs: half the rate, and two thirds of it.
#![tactic(auto)]

ghost use Rattle.std.specs.Prelude.{◌≡◌, ◌+◌, ◌*◌, ◌/◌, ◌≤◌, ◌<◌, length};
ghost use Rattle.lists.specs.Fill.{filled};
ghost use Rattle.lists.specs.Signal.{sample};
ghost use Rattle.silk_resampler.specs.Down2.{even_next, odd_next, half_of, halved, down2_states};
ghost use Rattle.silk_resampler.specs.Down23.{filter_numbers, source_filter, ar2_out, feedback, first_next, ar2_states, filtered, states_of, with_states, weighted, rounded, even_out, odd_out, decimated, buffer, down2_3_states};

mod filter;

pub use filter::Filter;
use silk_macros::{silk_rshift_round, silk_sat16, silk_smlawb, silk_smulwb};
use zint::{wrapping_add_i32, wrapping_mul_i32, wrapping_sub_i32};

// The coefficient of the section over the odd samples, in Q16.
pub const SILK_RESAMPLER_DOWN2_0: i32 = 9872;

// The coefficient of the section over the even samples, less one, in Q16.
pub const SILK_RESAMPLER_DOWN2_1: i32 = 39809 - 65536;

// The filter at two thirds of the rate: the recursion's two coefficients in Q14, and the four of the outputs.
pub const SILK_RESAMPLER_2_3_COEFS_LQ: [i16; 6] = [-2797, -6507, 4697, 10739, 1567, 8276];

// The two states after a step of a decimator, and its output.
#[derive(Drop)]
struct Step<T> {
    s0: i32,
    s1: i32,
    out: T,
}

// One output of the decimator by two, from the samples a and b.
fn down2_step(s0: i32, s1: i32, a: i16, b: i16) -> Step<i16>
    ensures { (result.s0 ≡ even_next s0 a) × (result.s1 ≡ odd_next s1 b) × (result.out ≡ half_of s0 s1 a b) }
{
    let in0 = (a as i32) << 10;
    let y0 = wrapping_sub_i32(in0, s0);
    let x0 = silk_smlawb(y0, y0, SILK_RESAMPLER_DOWN2_1);
    let o0 = wrapping_add_i32(s0, x0);
    let n0 = wrapping_add_i32(in0, x0);
    let in1 = (b as i32) << 10;
    let y1 = wrapping_sub_i32(in1, s1);
    let x1 = silk_smulwb(y1, SILK_RESAMPLER_DOWN2_0);
    let o1 = wrapping_add_i32(o0, s1);
    let o2 = wrapping_add_i32(o1, x1);
    let n1 = wrapping_add_i32(in1, x1);
    let out = silk_sat16(silk_rshift_round(o2, 11)) as i16;
    Step {
        s0: n0,
        s1: n1,
        out,
    }
}

// Half the rate: in_len / 2 outputs, and the two states of s moved on.
// The source's signature: the port goes function by function. By place: of what a `zip` with `iter_mut` writes a proof knows nothing,
// and of `as_chunks` it stayed open in silk_sigproc that chunk k holds the samples 2k and 2k + 1.
pub fn silk_resampler_down2(s: &mut [i32], out: &mut [i16], input: &[i16], in_len: usize)
    requires { (2 ≤ length s.old) × ((in_len / 2 ≤ length out.old) × (in_len ≤ length input.now)) }
    ensures out_after { out.new ≡ filled (halved (sample s.old 0) (sample s.old 1) (sample input.now)) (in_len / 2) out.old }
    ensures s_after { s.new ≡ down2_states s.old (sample input.now) (in_len / 2) }
{
    let len2 = in_len / 2;
    let mut s0 = s[0];
    let mut s1 = s[1];
    for k in 0..len2 {
        let step = down2_step(s0, s1, input[2 * k], input[2 * k + 1]);
        let half = step.out;
        s0 = step.s0;
        s1 = step.s1;
        out[k] = half;
    }
    s[0] = s0;
    s[1] = s1;
}

// The source's filter.
pub fn source_filter() -> Filter
    ensures { result ≡ source_filter }
{
    Filter {
        factor: 1,
        adds: 1,
        round_even: 9,
        round_odd: 8,
    }
}

// One step of the recursion, of the sample x.
fn ar2_step(s0: i32, s1: i32, x: i16, a0: i32, a1: i32, filter: Filter) -> Step<i32>
    ensures { (result.s0 ≡ first_next (filter_numbers filter) a0 s1 (ar2_out s0 x)) × (result.s1 ≡ feedback (filter_numbers filter) a1 (ar2_out s0 x)) × (result.out ≡ ar2_out s0 x) }
{
    let out = wrapping_add_i32(s0, (x as i32) << 8);
    let fed = wrapping_mul_i32(out, filter.factor as i32);
    let added = wrapping_add_i32(s1, wrapping_mul_i32(out, filter.adds as i32));
    let n0 = wrapping_add_i32(added, silk_smulwb(fed, a0));
    let n1 = silk_smulwb(fed, a1);
    Step {
        s0: n0,
        s1: n1,
        out,
    }
}

// The second-order recursion with the coefficients a_q14: len outputs, and the two states of s moved on.
// The source's signature: the port goes function by function. By place, as in `silk_resampler_down2`.
pub fn silk_resampler_private_ar2(
    s: &mut [i32],
    out_q8: &mut [i32],
    input: &[i16],
    a_q14: &[i16],
    len: usize,
    filter: Filter,
)
    requires { (2 ≤ length s.old) × ((len ≤ length out_q8.old) × ((len ≤ length input.now) × (2 ≤ length a_q14.now))) }
    ensures out_q8_after { out_q8.new ≡ filled (filtered (filter_numbers filter) (sample a_q14.now 0) (sample a_q14.now 1) (states_of s.old) (sample input.now)) len out_q8.old }
    ensures s_after { s.new ≡ with_states (ar2_states (filter_numbers filter) (sample a_q14.now 0) (sample a_q14.now 1) (states_of s.old) (sample input.now) len) s.old }
{
    let a0 = a_q14[0] as i32;
    let a1 = a_q14[1] as i32;
    let mut s0 = s[0];
    let mut s1 = s[1];
    for k in 0..len {
        let step = ar2_step(s0, s1, input[k], a0, a1, filter);
        let out = step.out;
        s0 = step.s0;
        s1 = step.s1;
        out_q8[k] = out;
    }
    s[0] = s0;
    s[1] = s1;
}

const RESAMPLER_MAX_BATCH_SIZE_IN: usize = 480;

const ORDER_FIR: usize = 4;

// Four neighbours of buf from p on by four coefficients, rounded by shift bits and held within 16.
// The four coefficients stand one by one, as the source names them.
fn weighted_output(buf: &[i32], p: usize, c: i16, d: i16, e: i16, f: i16, shift: u32) -> i16
    requires { (p + 4 ≤ length buf.now) × ((0 < shift) × (shift < 31)) }
    ensures { result ≡ rounded shift (weighted c d e f (sample buf.now) p) }
{
    let r0 = silk_smulwb(buf[p], c as i32);
    let r1 = silk_smlawb(r0, buf[p + 1], d as i32);
    let r2 = silk_smlawb(r1, buf[p + 2], e as i32);
    let res_q6 = silk_smlawb(r2, buf[p + 3], f as i32);
    silk_sat16(silk_rshift_round(res_q6, shift as i32)) as i16
}

// Output 2m.
fn even_output(buf: &[i32], m: usize, filter: Filter) -> i16
    requires { 3 * m + 4 ≤ length buf.now }
    ensures { result ≡ even_out (filter_numbers filter) (sample buf.now) m }
{
    let c = SILK_RESAMPLER_2_3_COEFS_LQ;
    weighted_output(buf, 3 * m, c[2], c[3], c[5], c[4], filter.round_even)
}

// Output 2m + 1: the same coefficients from the other end.
// Not one function with a flag: place, order of the coefficients and rounding all differ.
fn odd_output(buf: &[i32], m: usize, filter: Filter) -> i16
    requires { 3 * m + 5 ≤ length buf.now }
    ensures { result ≡ odd_out (filter_numbers filter) (sample buf.now) m }
{
    let c = SILK_RESAMPLER_2_3_COEFS_LQ;
    weighted_output(buf, 3 * m + 1, c[4], c[5], c[3], c[2], filter.round_odd)
}

// Two outputs for every three values of buf, n times. By places and not by chunks: the outputs of three values read two values of the next three as well.
// By a number of turns and not by the lengths of slices: those of out and buf would differ, 2n and 3n + 2.
fn decimate(out: &mut [i16], buf: &[i32], n: usize, filter: Filter)
    requires { (2 * n ≤ length out.old) × (3 * n + 2 ≤ length buf.now) }
    ensures { out.new ≡ filled (decimated (filter_numbers filter) (sample buf.now)) (2 * n) out.old }
{
    for m in 0..n {
        let even = even_output(buf, m, filter);
        let odd = odd_output(buf, m, filter);
        out[2 * m] = even;
        out[2 * m + 1] = odd;
    }
}

// Two thirds of the rate by a filter, one batch: 2 (in_len / 3) outputs, and the six states of s moved on. The source's signature, but for the filter: the port goes function by function.
pub fn silk_resampler_down2_3(
    s: &mut [i32],
    out: &mut [i16],
    input: &[i16],
    in_len: usize,
    filter: Filter,
)
    requires { (6 ≤ length s.old) × ((2 * (in_len / 3) ≤ length out.old) × ((in_len ≤ length input.now) × (in_len ≤ 480))) }
    ensures out_after { out.new ≡ filled (decimated (filter_numbers filter) (buffer (filter_numbers filter) s.old (sample input.now))) (2 * (in_len / 3)) out.old }
    ensures s_after { s.new ≡ down2_3_states (filter_numbers filter) s.old (sample input.now) in_len }
{
    let mut buf = [0i32; RESAMPLER_MAX_BATCH_SIZE_IN + ORDER_FIR];
    buf[..ORDER_FIR].copy_from_slice(&s[..ORDER_FIR]);
    silk_resampler_private_ar2(
        &mut s[ORDER_FIR..ORDER_FIR + 2],
        &mut buf[ORDER_FIR..ORDER_FIR + in_len],
        input,
        &SILK_RESAMPLER_2_3_COEFS_LQ,
        in_len,
        filter,
    );
    decimate(out, &buf, in_len / 3, filter);
    s[..ORDER_FIR].copy_from_slice(&buf[in_len..in_len + ORDER_FIR]);
}
