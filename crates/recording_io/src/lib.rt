// What the programs share that take a recording or a sheet: reading standard input, writing standard output, and telling on standard error that either failed.
// Each is a reader or a writer that is handed over. What is stated is how many bytes of the buffer count, when a read that fails ends the reading and, where it is known which bytes a reader
// has or a writer holds, that those of the buffer are what the reader lost, and the text is what the writer got.
// A read that a signal interrupts before it moves a byte counts as one that failed; a write is begun again then, as std does it.
#![tactic(auto)]

ghost use Rattle.std.specs.Prelude.{◌≡◌, ℕ, ◌*◌, ◌<◌, ◌≤◌, List, ◌++◌, take, length, IfOk, OnOk, OnErr};
ghost use Rattle.std.specs.Io.KnownBytes.{Appends, Consumes, IsAtEnd};
ghost use Rattle.recording_io.specs.Counts.{IsPrefixLen};
ghost use Rattle.recording_io.specs.declared.Failure.TheVariants.{Reading};
ghost use Rattle.recording_io.specs.ReadAnswer.{most_reads, so_far};

use rooms::room;
use std::io;
use std::io::{Read, Write};

// The reads after which `read_whole` stops counting, where it is to count the whole rest: 2 to the 40.
pub const EVERY: usize = 1099511627776;

// How many bytes were read into a buffer and, where they fill it, how many more there were.
#[derive(Clone, Copy)]
pub struct Whole {
    pub count: usize,
    pub more: usize,
}

// A read failed: what the answer would have been where the input ended there.
#[derive(Clone, Copy)]
pub struct Unread<T> {
    pub so_far: T,
}

// Why a program did not do all: reading its input failed, or writing its output.
#[derive(Clone, Copy)]
pub enum Failure {
    Reading,
    Writing,
}

impl<T: Copy> From<Unread<T>> for Failure {
    ghost from_gives = { λ _ failure. failure ≡ Reading };

    fn from(_unread: Unread<T>) -> Failure {
        Failure::Reading
    }
}

// What reading into a buffer brought, and how it ended: the buffer was full or the input at its end, or a read failed with this error.
// The count stands beside the end and not in it: it counts whether reading failed or not.
#[derive(Drop)]
pub struct Filled {
    pub count: usize,
    pub end: io::Result<()>,
}

// Reads the input until `buf` is full, the input ends or a read fails; then `buf` is not full. Of the bytes past the count nothing is known. On an empty `buf` it makes no call.
#[tactic(auto, using(crate::specs::FilledLaws::filled_more))]
pub fn fill<R: Read>(input: &mut R, buf: &mut [u8]) -> Filled
    ensures prefix_len { IsPrefixLen result.count buf.new }
    ensures unread { OnErr result.end (result.count < length buf.new) }
    ensures bytes { Consumes (R.remaining input.old) (R.remaining input.new) (take result.count buf.new) }
    ensures end { OnOk result.end (result.count < length buf.new → IsAtEnd (R.remaining input.new)) }
{
    let mut count = 0;
    // A `while`: what it counts is the bytes that the reads bring, and no index.
    while count < buf.len() {
        match input.read(&mut buf[count..]) {
            Ok(0) => break,
            Ok(more) => count += more,
            Err(error) => return Filled {
                count,
                end: Err(error),
            },
        }
    }
    Filled { count, end: Ok(()) }
}

// Fills `buf` as `fill` does; where a read failed, the error is what came before it.
pub fn read_input<R: Read>(input: &mut R, buf: &mut [u8]) -> Result<usize, Unread<usize>>
    ensures prefix_len { IsPrefixLen (so_far result) buf.new }
    ensures unread { OnErr result (so_far result < length buf.new) }
    ensures bytes { Consumes (R.remaining input.old) (R.remaining input.new) (take (so_far result) buf.new) }
    ensures end { IfOk result (λ count. count < length buf.new → IsAtEnd (R.remaining input.new)) }
{
    let Filled { count, end } = fill(input, buf);
    match end {
        Ok(()) => Ok(count),
        Err(_) => Err(Unread { so_far: count }),
    }
}

// How many bytes are left to read, by so many reads at most.
fn count_rest<R: Read>(input: &mut R, reads: usize) -> Result<usize, Unread<usize>>
    requires { reads ≤ most_reads }
    ensures count_in_bounds { so_far result ≤ 65536 * reads }
    ensures bytes { (rest : List ℕ) × (length rest ≡ so_far result) × Consumes (R.remaining input.old) (R.remaining input.new) rest }
    ensures end { IfOk result (λ count. count < reads → IsAtEnd (R.remaining input.new)) }
{
    let mut chunk = room::<u8, 65536>(0);
    let mut total = 0;
    // A `for` over a range: it counts reads, and no index.
    for _ in 0..reads {
        match input.read(&mut chunk) {
            Ok(0) => return Ok(total),
            Ok(count) => total += count,
            Err(_) => return Err(Unread { so_far: total }),
        }
    }
    Ok(total)
}

// Reads the input into `buf` and, where it is full, counts what is left by so many reads at most.
pub fn read_whole<R: Read>(
    input: &mut R,
    buf: &mut [u8],
    reads: usize,
) -> Result<Whole, Unread<Whole>>
    requires { reads ≤ most_reads }
    ensures prefix_len { IsPrefixLen (so_far result).count buf.new }
    ensures count_value { 0 < (so_far result).more → (so_far result).count ≡ length buf.new }
    ensures bytes { (rest : List ℕ) × (length rest ≡ (so_far result).more) × Consumes (R.remaining input.old) (R.remaining input.new) (take (so_far result).count buf.new ++ rest) }
    ensures end { IfOk result (λ whole. whole.more < reads → IsAtEnd (R.remaining input.new)) }
{
    let count = read_input(input, buf).map_err(|unread| Unread {
        so_far: Whole {
            count: unread.so_far,
            more: 0,
        },
    })?;
    if count < buf.len() {
        return Ok(Whole { count, more: 0 });
    }
    count_rest(input, reads)
        .map(|more| Whole { count, more })
        .map_err(|unread| Unread {
            so_far: Whole {
                count,
                more: unread.so_far,
            },
        })
}

// Reads the whole of the input into `buf`, and counts what does not fit; where a read failed, says so in the name of the program.
pub fn read_recording<R: Read, E: Write>(
    input: &mut R,
    errors: &mut E,
    name: &[u8],
    buf: &mut [u8],
) -> Result<Whole, Unread<Whole>>
    ensures prefix_len { IsPrefixLen (so_far result).count buf.new }
    ensures count_value { 0 < (so_far result).more → (so_far result).count ≡ length buf.new }
    ensures bytes { (rest : List ℕ) × (length rest ≡ (so_far result).more) × Consumes (R.remaining input.old) (R.remaining input.new) (take (so_far result).count buf.new ++ rest) }
    ensures end { IfOk result (λ whole. whole.more < most_reads → IsAtEnd (R.remaining input.new)) }
{
    let whole = read_whole(input, buf, EVERY);
    if whole.is_err() {
        say_unread(errors, name);
    }
    whole
}

// A line on standard error: the program's name, and what failed.
fn complain<E: Write>(errors: &mut E, name: &[u8], what: &[u8]) {
    let _ = errors.write_all(name);
    let _ = errors.write_all(what);
}

// Says that a read of standard input failed.
pub fn say_unread<E: Write>(errors: &mut E, name: &[u8]) {
    complain(errors, name, b": reading standard input failed\n");
}

// Writes all of `text` to standard output, or says that this failed: some of it may have been written then.
pub fn write_output<W: Write, E: Write>(
    output: &mut W,
    errors: &mut E,
    name: &[u8],
    text: &[u8],
) -> Result<(), Failure>
    ensures { OnOk result (Appends (W.contents output.old) (W.contents output.new) text.now) }
{
    if output.write_all(text).is_err() {
        complain(errors, name, b": writing standard output failed\n");
        return Err(Failure::Writing);
    }
    Ok(())
}
