// The sheet: a track's settings and rows as bytes, written and read back. Neither call has a `requires`.
#![tactic(auto)]

ghost use Rattle.std.specs.Prelude.{[], ◌∷◌, ◌++◌, ◌≡◌, ◌*◌, ◌≤◌, pos, length, IfOk};
ghost use Rattle.answers.specs.Answer.{answer_numbers};
ghost use Rattle.refusals.specs.Refusals.{told, number_told};
ghost use Rattle.sheet_sections.specs.Sheet.{sheet_length, setting_numbers, rows_of, sheet};
ghost use Rattle.sheet_page.specs.Page.{sheet_settings, frames_in};
ghost use Rattle.pitch_sheet.specs.Calls.{rows_hold, write_no, wrote, write_call, write_numbers, read_no, told_read, got, read_call, read_numbers};
ghost use Rattle.pitch_table.specs.Row.{row_size, most_frames};

use pitch_settings::{Held, Settings};
use pitch_table::{MOST_FRAMES, ROW_SIZE, get_row};
use refusals::Refusal;
use sheet_page::SheetPage;
use sheet_rows::row_holds;
use sheet_sections::{LONGEST_SHEET, Sheet, voiced_rows};

// The bytes of the longest sheet: a page of that length is never too short.
pub fn longest_sheet() -> usize
    ensures { result ≡ sheet_length most_frames most_frames }
{
    LONGEST_SHEET
}

// Whether a sheet can hold each of the first rows. A table and a count, as the definition has them: the slice of the rows would be no plainer.
fn rows_hold(settings: Held, table: &[i32], rows: usize) -> bool
    requires { rows * row_size ≤ length table.now }
    ensures { result ≡ rows_hold settings.settings table.now rows }
{
    (0..rows).all(|i| row_holds(settings, get_row(table, i)))
}

// The sheet of the first rows, which a page of `room` bytes can take, or why there is none. The frame count and the room stand beside the slices because they are judged here, as `write_sheet` must:
// more frames than the table has rows are refused.
#[tactic(auto, using(crate::specs::CallsLaws::no_settings, crate::specs::CallsLaws::no_frames, crate::specs::CallsLaws::no_rows, crate::specs::CallsLaws::no_table, crate::specs::CallsLaws::no_room, crate::specs::CallsLaws::no_refusal, crate::specs::CallsLaws::hold_each))]
fn sheet_of(s: Settings, frames: usize, table: &[i32], room: usize) -> Result<Sheet, Refusal>
    ensures number { number_told result ≡ write_no s frames table.now room }
    ensures settings { IfOk result (λ t. t.settings.settings ≡ s) }
    ensures table { IfOk result (λ t. t.table.now ≡ table.now) }
    ensures frames { IfOk result (λ t. t.frames ≡ frames) }
{
    let settings = s.held()?;
    if frames > MOST_FRAMES {
        return Err(Refusal::LongTrack);
    }
    let whole = table.len() / ROW_SIZE;
    if !rows_hold(settings, table, frames.min(whole)) {
        return Err(Refusal::Malformed);
    }
    if whole < frames {
        return Err(Refusal::ShortTable);
    }
    let sheet = Sheet {
        settings,
        table,
        frames,
        voiced: voiced_rows(table, frames),
    };
    if sheet.length() > room {
        return Err(Refusal::ShortPage);
    }
    Ok(sheet)
}

// Writes the sheet of the first rows at the front of the page, and answers how many bytes it has. The frame count stands beside the table: this is a promise to customers, and a table with fewer
// rows is refused with 7, where a slice of the first rows could not be taken.
pub fn write_sheet(
    s: Settings,
    frames: usize,
    table: &[i32],
    page: &mut [u8],
) -> Result<usize, Refusal>
    ensures page_after { wrote (told result) page.new ≡ write_call s frames table.now page.old }
    ensures numbers { write_numbers (told result) ≡ answer_numbers (write_no s frames table.now (length page.old)) (pos (length (sheet s (rows_of table.now frames))) ∷ []) }
{
    let sheet = sheet_of(s, frames, table, page.len())?;
    Ok(sheet.put(page))
}

// Reads the page's sheet, which must be the whole page, into the first rows of the table, and answers its settings and how many frames it has.
pub fn read_sheet(page: &[u8], table: &mut [i32]) -> Result<(Held, usize), Refusal>
    ensures table_after { got (told_read result) table.new ≡ read_call page.now table.old }
    ensures numbers { read_numbers (told_read result) ≡ answer_numbers (read_no page.now table.old) (setting_numbers (sheet_settings page.now) ++ (pos (frames_in page.now) ∷ [])) }
{
    let sheet = SheetPage::of(page)?;
    if table.len() / ROW_SIZE < sheet.sections.frames {
        return Err(Refusal::ShortTable);
    }
    sheet.put_rows(table);
    Ok((sheet.sections.settings, sheet.sections.frames))
}
