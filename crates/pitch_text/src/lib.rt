// Text: decimal numbers and lines as bytes, written at a place of a buffer.
// Each function takes the place at which it writes and answers the place after its text: nothing here allocates, and `write!` answers a Result of which no clause promises that it is Ok.
#![tactic(auto)]

ghost use Rattle.std.specs.Prelude.{◌≡◌, ◌+◌, ◌*◌, ◌/◌, ◌≤◌, length};
ghost use Rattle.refusals.specs.Refusals.{refusal_number};
ghost use Rattle.pitch_table.specs.Row.{row_size, most_frames, row_at};
ghost use Rattle.pitch_text.specs.Decimal.{digits, decimal};
ghost use Rattle.pitch_text.specs.Text.{field_bytes, row_text_bytes, line_bytes, refused_bytes, fields, letter_of, row_text, line_text, lines_text, refused_text, Put};

use pitch_table::{ROW_SIZE, Row, get_row};
use refusals::Refusal;
use silk_macros::abs_u32;

// The bytes of an unsigned number of 32 bits at most.
pub const DIGITS_BYTES: usize = 10;

// The bytes of a field at most: a space and a signed number.
pub const FIELD_BYTES: usize = 2 + DIGITS_BYTES;

// The bytes of a row as a line at most: a letter, seven fields and the end of the line.
pub const ROW_TEXT_BYTES: usize = 2 + FIELD_BYTES * 7;

// The bytes of a frame's line at most: its number and a space, then its row.
pub const LINE_BYTES: usize = DIGITS_BYTES + 1 + ROW_TEXT_BYTES;

// The decimal digits of n, from `at` on; the place after them.
pub fn put_digits(out: &mut [u8], at: usize, n: u32) -> usize
    requires { at + length (digits n) ≤ length out.old }
    ensures { Put out.old at (digits n) result out.new }
{
    if n < 10 {
        out[at] = (48 + n) as u8;
        at + 1
    } else {
        let last = put_digits(out, at, n / 10);
        out[last] = (48 + n % 10) as u8;
        last + 1
    }
}

// A signed number in decimal.
pub fn put_number(out: &mut [u8], at: usize, z: i32) -> usize
    requires { at + length (decimal z) ≤ length out.old }
    ensures { Put out.old at (decimal z) result out.new }
{
    if z < 0 {
        out[at] = b'-';
        put_digits(out, at + 1, abs_u32(z))
    } else {
        put_digits(out, at, abs_u32(z))
    }
}

// The values, each after a space.
pub fn put_fields(out: &mut [u8], at: usize, values: &[i32]) -> usize
    requires { at + field_bytes * length values.now ≤ length out.old }
    ensures { Put out.old at (fields values.now) result out.new × (result ≤ at + field_bytes * length values.now) }
{
    let mut end = at;
    for value in values {
        out[end] = b' ';
        end = put_number(out, end + 1, *value);
    }
    end
}

// V, U or Z. By the number, since a row that was read from a table can have any: 0 is V, 1 is U, and all others are Z.
fn letter(verdict: i32) -> u8
    ensures { result ≡ letter_of verdict }
{
    match verdict {
        0 => b'V',
        1 => b'U',
        _ => b'Z',
    }
}

// A row as a line, with the lags of nb subframes.
// Any count up to 4, here and below, as was promised: settings would ask more of callers.
pub fn put_row_text(out: &mut [u8], at: usize, nb: usize, r: Row) -> usize
    requires { (nb ≤ 4) × (at + row_text_bytes ≤ length out.old) }
    ensures { Put out.old at (row_text nb r) result out.new × (result ≤ at + row_text_bytes) }
{
    out[at] = letter(r.verdict);
    let p = put_fields(out, at + 1, &r.numbers()[1..4 + nb]);
    out[p] = b'\n';
    p + 1
}

// A frame's line: its number, then its row.
pub fn put_line(out: &mut [u8], at: usize, i: u32, nb: usize, r: Row) -> usize
    requires { (nb ≤ 4) × (at + line_bytes ≤ length out.old) }
    ensures { Put out.old at (line_text i nb r) result out.new × (result ≤ at + line_bytes) }
{
    let p = put_digits(out, at, i);
    out[p] = b' ';
    put_row_text(out, p + 1, nb, r)
}

// The lines of a table's rows.
pub fn put_lines(out: &mut [u8], at: usize, nb: usize, rows: &[i32]) -> usize
    requires { (nb ≤ 4) × (length rows.now / row_size ≤ most_frames) × (at + line_bytes * (length rows.now / row_size) ≤ length out.old) }
    ensures { Put out.old at (lines_text nb (row_at rows.now) (length rows.now / row_size)) result out.new × (result ≤ at + line_bytes * (length rows.now / row_size)) }
{
    let mut p = at;
    // by number, as `get_row` reads the table. Tried over `chunks_exact(..).enumerate()`: the loop's proof then has a list of pairs and no i; what `put_line` asks and the result stayed open
    for i in 0..rows.len() / ROW_SIZE {
        p = put_line(out, p, i as u32, nb, get_row(rows, i));
    }
    p
}

// `refused` and a number.
// Any number, as was promised; `put_refusal` hands over a refusal's.
pub fn put_refused(out: &mut [u8], at: usize, n: u32) -> usize
    requires { at + refused_bytes ≤ length out.old }
    ensures { Put out.old at (refused_text n) result out.new × (result ≤ at + refused_bytes) }
{
    out[at..at + 8].copy_from_slice(b"refused ");
    let last = put_digits(out, at + 8, n);
    out[last] = b'\n';
    last + 1
}

// `refused` and the refusal's number.
pub fn put_refusal(out: &mut [u8], at: usize, refusal: Refusal) -> usize
    requires { at + refused_bytes ≤ length out.old }
    ensures { Put out.old at (refused_text (refusal_number refusal)) result out.new × (result ≤ at + refused_bytes) }
{
    put_refused(out, at, refusal.number() as u32)
}
