// What the program `sheet_read` prints: a sheet's bytes are read, and its settings and rows written as text.
#![tactic(auto)]

ghost use Rattle.std.specs.Prelude.{◌≡◌, true, List, ◌++◌, ℕ, ◌*◌, ◌/◌, ◌≤◌, ltb, length};
ghost use Rattle.pitch_table.specs.Row.{row_size, most_frames, row_at};
ghost use Rattle.pitch_text.specs.Text.{Put};
ghost use Rattle.sheet_sections.specs.Sheet.{sheet_length};
ghost use Rattle.sheet_text.specs.Program.{sheet_head_bytes, sheet_text_bytes, sheet_head, sheet_report, sheet_printed, sheet_text_call};

use pitch_settings::Held;
use pitch_sheet::read_sheet;
use pitch_table::{MOST_FRAMES, ROW_SIZE};
use pitch_text::{
    DIGITS_BYTES, FIELD_BYTES, LINE_BYTES, put_digits, put_fields, put_lines, put_refusal,
};
use refusals::Refusal;
use sheet_sections::{SETTINGS_COUNT, setting_numbers};

// The bytes of a sheet's text at most: the first line, and a line for each frame.
pub const SHEET_TEXT_BYTES: usize = DIGITS_BYTES
    + FIELD_BYTES * SETTINGS_COUNT
    + 1
    + LINE_BYTES * MOST_FRAMES;

// Settings and frame count.
fn put_head(out: &mut [u8], settings: Held, frames: usize) -> usize
    requires { (frames ≤ most_frames) × (sheet_head_bytes ≤ length out.old) }
    ensures { Put out.old 0 (sheet_head settings.settings frames) result out.new × (result ≤ sheet_head_bytes) }
{
    let numbers = setting_numbers(settings);
    let p = put_digits(out, 0, settings.settings.rate as u32);
    let p = put_fields(out, p, &numbers[1..]);
    let p = put_fields(out, p, &[frames as i32]);
    out[p] = b'\n';
    p + 1
}

// The text for a sheet's rows.
fn put_report(out: &mut [u8], settings: Held, rows: &[i32]) -> usize
    requires { (length rows.now / row_size ≤ most_frames) × (sheet_text_bytes ≤ length out.old) }
    ensures { Put out.old 0 (sheet_report settings.settings (row_at rows.now) (length rows.now / row_size)) result out.new × (result ≤ sheet_text_bytes) }
{
    let p = put_head(out, settings, rows.len() / ROW_SIZE);
    put_lines(out, p, settings.settings.nb, rows)
}

// The text for an input that begins with these bytes, in the first bytes of `out`; how many they are. `more` says whether bytes follow: then these are as many as the longest
// sheet has. The sheet's rows are left in the first rows of `table`, by a refusal nothing; all else stays.
// Whether bytes follow is a fact about the input, and a flag as was promised.
pub fn sheet_text(input: &[u8], more: bool, table: &mut [i32], out: &mut [u8]) -> usize
    requires { (more ≡ true → sheet_length most_frames most_frames ≤ length input.now) × (most_frames * row_size ≤ length table.old) × (sheet_text_bytes ≤ length out.old) }
    ensures by_index { (rest : List ℕ) → ltb 0 (length rest) ≡ more → sheet_printed result out.new table.new ≡ sheet_text_call (input.now ++ rest) out.old table.old }
    ensures upper_bound { result ≤ sheet_text_bytes }
{
    if more {
        return put_refusal(out, 0, Refusal::Malformed);
    }
    match read_sheet(input, table) {
        Ok((settings, frames)) => put_report(out, settings, &table[..frames * ROW_SIZE]),
        Err(refusal) => put_refusal(out, 0, refusal),
    }
}
