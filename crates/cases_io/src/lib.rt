// What a program that replays a list of cases stands on: reading the list, little-endian numbers of a byte slice, comparison with them, and the lines that tell how many agree. A
// byte past the end reads as 0, and so no place is out of range. Only `count`, `over_list` and `replay` have a `requires`: each kind has its place among the tallies, and what is given to call can be called.
#![tactic(auto)]

ghost use Rattle.std.specs.Prelude.{List, ℕ, ◌≡◌, ◌+◌, ◌*◌, ◌<◌, ◌≤◌, min, take, length, replicate, None, IfSome, IfOk, OnOk, slice_index};
ghost use Rattle.std.specs.Io.{ReadsAtMost};
ghost use Rattle.std.specs.Io.KnownBytes.{Appends, Consumes, IsAtEnd};
ghost use Rattle.std.specs.Fn.{FnReturnsAt, FnOnceReturnsAt};
ghost use Rattle.lists.specs.Fill.{filled};
ghost use Rattle.cases_io.specs.Little.{u16_at, u32_at, u64_at, i16_at, i32_at, numbers_at, agree};
ghost use Rattle.cases_io.specs.LittleLaws.{byte_cut, i16_cut, i32_cut, u32_cut};
ghost use Rattle.cases_io.specs.Counts.{same_settings, counted, tally, tally_after, tally_plus, counted_at, totals_of};
ghost use Rattle.cases_io.specs.Replay.{Replayed};
ghost use Rattle.cases_io.specs.declared.Tally.{Tally};
ghost use Rattle.cases_io.specs.Lines.{tally_line, report_text};

use pitch_settings::Settings;
use recording_io::{Filled, fill};
use rooms::room;
use std::io;
use std::io::{Read, Write};
use zint::{as_i16, low32};

// How many cases there are, and how many agree.
#[derive(Clone, Copy)]
pub struct Tally {
    pub agreed: u64,
    pub total: u64,
}

// The bytes of a list of cases at most.
pub const LIST_BYTES: usize = 1048576;

// Reads until `buf` is full or the input ends, as `fill` does, and returns how many bytes it put at the start of `buf`. On an empty `buf` it makes no call.
pub fn read_full<R: Read>(input: &mut R, buf: &mut [u8]) -> io::Result<usize>
    ensures bound { ReadsAtMost result buf.new }
    ensures bytes { IfOk result (λ n. Consumes (R.remaining input.old) (R.remaining input.new) (take n buf.new)) }
    ensures end { IfOk result (λ n. n < length buf.new → IsAtEnd (R.remaining input.new)) }
{
    let Filled { count, end } = fill(input, buf);
    end?;
    Ok(count)
}

// Reads a list, to its end or as many bytes as there is room for, and runs `run` on it.
pub fn over_list<R: Read, F: FnOnce(&[u8]) -> io::Result<()>>(
    input: &mut R,
    run: F,
) -> io::Result<()>
    requires { F.IsAlwaysCallable run }
    ensures { OnOk result ((list : List ℕ) × Consumes (R.remaining input.old) (R.remaining input.new) list × (length list ≤ 1048576)
        × (length list < 1048576 → IsAtEnd (R.remaining input.new)) × FnOnceReturnsAt F.FnOnce run list result) }
{
    let mut bytes = room::<u8, LIST_BYTES>(0);
    let count = read_full(input, &mut bytes)?;
    run(&bytes[..count])
}

// The byte at `at`, or 0 past the end.
#[tactic(auto, using(crate::specs::LittleLaws::byte_past))]
pub fn byte_at(bytes: &[u8], at: usize) -> u8
    ensures { result ≡ slice_index bytes.now at }
{
    if at < bytes.len() { bytes[at] } else { 0 }
}

// The N bytes at `at`, each of them 0 past the end, one by one.
#[cold]
fn chunk_cut<const N: usize>(bytes: &[u8], at: usize) -> [u8; N]
    ensures { result ≡ filled (numbers_at slice_index 1 bytes.now at) N (replicate N 0) }
{
    let mut chunk = [0; N];
    load(bytes, at, &mut chunk);
    chunk
}

// The same: where all are there, which is nearly always, they are taken at once.
fn chunk<const N: usize>(bytes: &[u8], at: usize) -> [u8; N]
    ensures { result ≡ filled (numbers_at slice_index 1 bytes.now at) N (replicate N 0) }
{
    if let Some(chunk) = bytes[at.min(bytes.len())..].first_chunk() {
        return *chunk;
    }
    chunk_cut(bytes, at)
}

// The number of two bytes at `at`, without sign.
// Here and in the next two the type and the law of its value differ; what they share is `chunk`.
#[tactic(auto, using(crate::specs::LittleLaws::two_bytes))]
pub fn u16_at(bytes: &[u8], at: usize) -> u16
    ensures { result ≡ u16_at bytes.now at }
{
    let two: [u8; 2] = chunk(bytes, at);
    u16::from_le_bytes(two)
}

// The number of four bytes at `at`, without sign: a length or a count.
#[tactic(auto, using(crate::specs::LittleLaws::four_bytes))]
pub fn u32_at(bytes: &[u8], at: usize) -> usize
    ensures { (result ≡ u32_at bytes.now at) × (result < 4294967296) }
{
    let four: [u8; 4] = chunk(bytes, at);
    u32::from_le_bytes(four) as usize
}

// The number of eight bytes at `at`, without sign.
#[tactic(auto, using(crate::specs::LittleLaws::eight_bytes))]
pub fn usize_at(bytes: &[u8], at: usize) -> usize
    ensures { result ≡ u64_at bytes.now at }
{
    let eight: [u8; 8] = chunk(bytes, at);
    usize::from_le_bytes(eight)
}

// The number of two bytes at `at`, with its sign.
pub fn i16_at(bytes: &[u8], at: usize) -> i16
    ensures { result ≡ i16_at bytes.now at }
{
    as_i16(u16_at(bytes, at) as i32)
}

// The number of four bytes at `at`, with its sign.
pub fn i32_at(bytes: &[u8], at: usize) -> i32
    ensures { result ≡ i32_at bytes.now at }
{
    low32(u32_at(bytes, at) as i64)
}

// The place that is `by` bytes after `at`, or the end where that is nearer.
pub fn skip(bytes: &[u8], at: usize, by: usize) -> usize
    ensures { result ≡ min (at + by) (length bytes.now) }
{
    at.saturating_add(by).min(bytes.len())
}

// A number of a list: the bytes that it takes, and its value where it stands.
pub trait Little: Copy + PartialEq {
    ghost value_at: { List ℕ → ℕ → Self };

    ghost SIZE: { ℕ };

    const SIZE: usize;

    // The number at `at`.
    fn at(bytes: &[u8], at: usize) -> Self
        ensures { result ≡ value_at bytes.now at };

    ghost cut: { (xs : List ℕ) (place from : ℕ) → from ≡ min place (length xs) → value_at xs from ≡ value_at xs place };
}

impl Little for u8 {
    ghost value_at = { slice_index };

    ghost SIZE = { 1 };

    const SIZE: usize = 1;

    ghost cut = { byte_cut };

    fn at(bytes: &[u8], at: usize) -> u8 {
        byte_at(bytes, at)
    }
}

impl Little for i16 {
    ghost value_at = { i16_at };

    ghost SIZE = { 2 };

    const SIZE: usize = 2;

    ghost cut = { i16_cut };

    fn at(bytes: &[u8], at: usize) -> i16 {
        i16_at(bytes, at)
    }
}

impl Little for i32 {
    ghost value_at = { i32_at };

    ghost SIZE = { 4 };

    const SIZE: usize = 4;

    ghost cut = { i32_cut };

    fn at(bytes: &[u8], at: usize) -> i32 {
        i32_at(bytes, at)
    }
}

// Four bytes without sign: a length, a count or a place.
impl Little for usize {
    ghost value_at = { u32_at };

    ghost SIZE = { 4 };

    const SIZE: usize = 4;

    ghost cut = { u32_cut };

    fn at(bytes: &[u8], at: usize) -> usize {
        u32_at(bytes, at)
    }
}

// Number i of those that stand from `at` on.
pub fn nth<T: Little>(bytes: &[u8], at: usize, i: usize) -> T
    ensures { result ≡ T.value_at bytes.now (at + T.SIZE * i) }
{
    T::at(bytes, skip(bytes, at, i.saturating_mul(T::SIZE)))
}

// Fills out with the numbers from `at` on.
pub fn load<T: Little>(bytes: &[u8], at: usize, out: &mut [T])
    ensures { out.new ≡ filled (numbers_at T.value_at T.SIZE bytes.now at) (length out.old) out.old }
{
    for (i, number) in out.iter_mut().enumerate() {
        *number = nth(bytes, at, i);
    }
}

// Whether xs are the numbers from `at` on.
// A loop and not `enumerate().all(..)`, which was tried: std has no law of the two together, and the `ensures` stayed open.
pub fn same<T: Little>(bytes: &[u8], at: usize, xs: &[T]) -> bool
    ensures { result ≡ agree T.eq (numbers_at T.value_at T.SIZE bytes.now at) xs.now (length xs.now) }
{
    for (i, x) in xs.iter().enumerate() {
        if *x != nth(bytes, at, i) {
            return false;
        }
    }
    true
}

// The settings at `at`: rate, subframes and complexity (8 bytes each), the two thresholds (4 bytes each).
pub fn settings_at(bytes: &[u8], at: usize) -> Settings
    ensures { (result.rate ≡ u64_at bytes.now at)
        × (result.nb ≡ u64_at bytes.now (at + 8))
        × (result.complexity ≡ u64_at bytes.now (at + 16))
        × (result.thres1 ≡ i32_at bytes.now (at + 24))
        × (result.thres2 ≡ i32_at bytes.now (at + 28)) }
{
    Settings {
        rate: usize_at(bytes, at),
        nb: usize_at(bytes, skip(bytes, at, 8)),
        complexity: usize_at(bytes, skip(bytes, at, 16)),
        thres1: i32_at(bytes, skip(bytes, at, 24)),
        thres2: i32_at(bytes, skip(bytes, at, 28)),
    }
}

// Whether the two are the same settings: the derived `==`, as a function of its own since the contract says what it compares, each of the five numbers.
#[tactic(auto, unfolding(crate::specs::Counts::same_settings))]
pub fn same_settings(a: Settings, b: Settings) -> bool
    ensures { result ≡ same_settings a b }
{
    a == b
}

// A count after one case more, which counts or does not.
// The flag is the definition's: a case that counts, or not.
#[tactic(auto, unfolding(crate::specs::Counts::counted))]
fn counted(n: u64, counts: bool) -> u64
    ensures { result ≡ counted counts n }
{
    if counts { n.wrapping_add(1) } else { n }
}

impl Tally {
    // No case yet.
    // Here and in `plus` no Default or Add: their clauses would be std's own, and these say each of the two counts.
    pub fn none() -> Tally
        ensures { (result.agreed ≡ 0) × (result.total ≡ 0) }
    {
        Tally {
            agreed: 0,
            total: 0,
        }
    }

    // One case more.
    #[tactic(auto, unfolding(crate::specs::Counts::tally_after))]
    pub fn counted(self, agrees: bool) -> Tally
        ensures { result ≡ tally_after self agrees }
    {
        Tally {
            agreed: counted(self.agreed, agrees),
            total: counted(self.total, true),
        }
    }

    // The counts of both.
    #[tactic(auto, unfolding(crate::specs::Counts::tally_plus))]
    fn plus(self, other: Tally) -> Tally
        ensures { result ≡ tally_plus self other }
    {
        Tally {
            agreed: self.agreed.wrapping_add(other.agreed),
            total: self.total.wrapping_add(other.total),
        }
    }

    // The line `name agreed of total`.
    pub fn print<W: Write>(self, output: &mut W, name: &[u8]) -> io::Result<()>
        ensures { OnOk result (Appends (W.contents output.old) (W.contents output.new) (tally_line name.now self)) }
    {
        let agreed = self.agreed;
        let total = self.total;
        output.write_all(name)?;
        writeln!(output, " {agreed} of {total}")
    }
}

// One record more of this kind: its tally changes, all others stay. A kind is a number here, since it is no more than the place of its tally; which kinds there are is each list's own.
#[tactic(auto, unfolding(crate::specs::Counts::counted_at))]
pub fn count(tallies: &mut [Tally], kind: usize, agrees: bool)
    requires { kind < length tallies.old }
    ensures { tallies.new ≡ counted_at tallies.old kind agrees }
{
    tallies[kind] = tallies[kind].counted(agrees);
}

// What the line `all:` tells.
pub fn totals(tallies: &[Tally]) -> Tally
    ensures { result ≡ totals_of tallies.now }
{
    tallies
        .iter()
        .fold(Tally::none(), |sum, tally| sum.plus(*tally))
}

// A line for each kind, and one for all.
pub fn report<W: Write>(output: &mut W, tallies: &[Tally]) -> io::Result<()>
    ensures { OnOk result (Appends (W.contents output.old) (W.contents output.new) (report_text tallies.now)) }
{
    for (kind, tally) in tallies.iter().enumerate() {
        write!(output, "kind {kind}")?;
        tally.print(output, b":")?;
    }
    totals(tallies).print(output, b"all:")
}

// Goes through a list whose cases stand one after another, and prints how many agree of those that `agrees` answers for. A case has at least one byte.
pub fn replay<W: Write, S: Fn(&[u8]) -> usize, A: Fn(&[u8]) -> Option<bool>>(
    output: &mut W,
    name: &[u8],
    list: &[u8],
    size: S,
    agrees: A,
) -> io::Result<()>
    requires sized { S.IsAlwaysCallable size }
    requires answered { A.IsAlwaysCallable agrees }
    ensures { OnOk result ((t : Tally) × Replayed (FnReturnsAt S.Fn size) (FnReturnsAt A.Fn agrees) (tally 0 0) list.now t
        × Appends (W.contents output.old) (W.contents output.new) (tally_line name.now t)) }
{
    let mut tally = Tally::none();
    let mut rest = list;
    // A `while`: a turn takes as many bytes as its case has, so there is no index and no iterator of equal parts.
    while !rest.is_empty() {
        let (case, after) = rest.split_at(size(rest).max(1).min(rest.len()));
        if let Some(agreed) = agrees(case) {
            tally = tally.counted(agreed);
        }
        rest = after;
    }
    tally.print(output, name)
}

// The kind of a record, its head's first byte; none where it is not below `kinds`.
pub fn kind_of(head: &[u8], kinds: usize) -> Option<usize>
    ensures some { IfSome result (λ kind. (kind ≡ slice_index head.now 0) × (kind < kinds)) }
    ensures none { result ≡ None → kinds ≤ slice_index head.now 0 }
{
    Some(byte_at(head, 0) as usize).filter(|kind| *kind < kinds)
}

// The records of an input: what a head tells, and whether what stands after it agrees.
pub trait Records<const HEAD: usize, const KINDS: usize> {
    // The record's kind, where it is known.
    fn kind(head: &[u8; HEAD]) -> Option<usize>
        ensures { IfSome result (λ k. k < KINDS) };

    // Reads the rest of the record and tells whether the call agrees.
    fn agrees<R: Read>(input: &mut R, head: &[u8; HEAD]) -> io::Result<bool>;

    ghost few: { (HEAD ≤ 65536) × (KINDS ≤ 65536) };
}

// Counts the records of an input, kind by kind, up to the first that is cut in its head or of an unknown kind, at most `most`.
pub fn replay_input<T: Records<HEAD, KINDS>, const HEAD: usize, const KINDS: usize, R: Read>(
    input: &mut R,
    most: usize,
) -> io::Result<[Tally; KINDS]> {
    let mut tallies = [Tally::none(); KINDS];
    // A `for` over a range: it counts records that are read, and no index.
    for _ in 0..most {
        let mut head = [0; HEAD];
        if read_full(input, &mut head)? < HEAD {
            break;
        }
        let Some(kind) = T::kind(&head) else {
            break;
        };
        count(&mut tallies, kind, T::agrees(input, &head)?);
    }
    Ok(tallies)
}
