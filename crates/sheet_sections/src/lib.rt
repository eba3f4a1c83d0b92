// The sections of a sheet: how many bytes each has and where it stands, which rows have an entry in it, what the entry is, and how a page is written.
#![tactic(auto)]

ghost use Rattle.std.specs.Prelude.{map, true, ◌≡◌, ℕ, ◌+◌, ◌*◌, ◌<◌, ◌≤◌, length};
ghost use Rattle.pitch_table.specs.Row.{row_size, most_frames, row_at};
ghost use Rattle.sheet_bytes.specs.Bytes.{signed};
ghost use Rattle.sheet_rows.specs.Rows.{FieldsFit, row_holds};
ghost use Rattle.lists.specs.Put.{Put};
ghost use Rattle.sheet_sections.specs.declared.Section.TheVariants.{Pairs};
ghost use Rattle.sheet_sections.specs.Sheet.{setting_bytes, frames_at, sheet_length, setting_numbers, has_entry, row_bytes, section_entries, section, setting_entries, concat, rows_of, sheet};

use pitch_settings::Held;
use pitch_table::{MOST_FRAMES, Row, get_row};
use sheet_bytes::{put_i32, put_u16, put_u32};

// How many settings a sheet has.
pub const SETTINGS_COUNT: usize = 5;

// The bytes of a section's count.
pub const COUNT_BYTES: usize = 4;

// The bytes of a setting.
pub const SETTING_BYTES: usize = 4;

// The bytes of a frame's verdict.
pub const VERDICT_BYTES: usize = 1;

// The bytes of a lag index.
pub const INDEX_BYTES: usize = 2;

// The bytes of a lag index and its contour.
pub const PAIR_BYTES: usize = INDEX_BYTES + 1;

// The bytes of a correlation.
pub const CORRELATION_BYTES: usize = 4;

// Where the settings stand, one after the other.
pub const RATE_AT: usize = COUNT_BYTES;

// The subframes of a frame.
pub const NB_AT: usize = RATE_AT + SETTING_BYTES;

// The complexity.
pub const COMPLEXITY_AT: usize = NB_AT + SETTING_BYTES;

// The first threshold.
pub const THRES1_AT: usize = COMPLEXITY_AT + SETTING_BYTES;

// The second threshold.
pub const THRES2_AT: usize = THRES1_AT + SETTING_BYTES;

// Where the frames' count stands: after the settings.
pub const FRAMES_AT: usize = COUNT_BYTES + SETTINGS_COUNT * SETTING_BYTES;

// Where the verdicts stand.
pub const VERDICTS_AT: usize = FRAMES_AT + COUNT_BYTES;

// Where the pairs of a sheet without frames would stand: they are as much farther on as the verdicts have bytes.
pub const PAIRS_AT: usize = VERDICTS_AT + COUNT_BYTES;

// Where the correlations of a sheet without frames would stand: they are as much farther on as the verdicts and the pairs have bytes.
pub const CORRELATIONS_AT: usize = PAIRS_AT + COUNT_BYTES;

// The bytes of a sheet without frames.
pub const SHORTEST_SHEET: usize = CORRELATIONS_AT;

// The bytes that a voiced frame takes in all sections.
pub const VOICED_FRAME_BYTES: usize = VERDICT_BYTES + PAIR_BYTES + CORRELATION_BYTES;

// The bytes of the longest sheet: a page of that length is never too short.
pub const LONGEST_SHEET: usize = SHORTEST_SHEET + MOST_FRAMES * VOICED_FRAME_BYTES;

// The sections after the settings, in their order on the page. An enum, since the definitions of a sheet go by the section; a trait with a type for each section says the same three cases and is no plainer.
#[derive(Clone, Copy)]
pub enum Section {
    Verdicts,
    Pairs,
    Correlations,
}

// The functions that write take the place where they begin and answer the place after: a type that held the page with its place would be no plainer, since each contract speaks of
// the page before and after.

impl Section {
    // Whether the row has an entry in the section: each has a verdict, a voiced one a pair and a correlation.
    fn has_entry(self, r: Row) -> bool
        ensures { result ≡ has_entry self r }
    {
        match self {
            Section::Verdicts => true,
            Section::Pairs | Section::Correlations => r.verdict == 0,
        }
    }

    // The row's bytes in the section, from `at` on; the place after them.
    fn put_row(self, page: &mut [u8], at: usize, r: Row) -> usize
        requires { FieldsFit r × (at + length (row_bytes self r) ≤ length page.old) }
        ensures { Put page.old at (row_bytes self r) result page.new }
    {
        if !self.has_entry(r) {
            return at;
        }
        match self {
            Section::Verdicts => {
                page[at] = r.verdict as u8;
                at + VERDICT_BYTES
            }
            Section::Pairs => {
                put_u16(page, at, r.index as u16);
                page[at + INDEX_BYTES] = r.contour as u8;
                at + PAIR_BYTES
            }
            Section::Correlations => {
                put_i32(page, at, r.correlation);
                at + CORRELATION_BYTES
            }
        }
    }
}

// How many of the first rows are voiced. A table and a count, as a `Sheet` has them: the definition counts among the first rows of a table, and to cut these out before would be no plainer.
pub fn voiced_rows(table: &[i32], frames: usize) -> usize
    requires { frames * row_size ≤ length table.now }
    ensures { result ≡ length (section_entries Pairs (rows_of table.now frames)) }
{
    (0..frames)
        .filter(|i| Section::Pairs.has_entry(get_row(table, *i)))
        .count()
}

// The bytes of a sheet of that many frames, so many of them voiced.
pub fn sheet_length(frames: usize, voiced: usize) -> usize
    requires { (frames ≤ most_frames) × (voiced ≤ most_frames) }
    ensures { result ≡ sheet_length frames voiced }
{
    SHORTEST_SHEET + VERDICT_BYTES * frames + (PAIR_BYTES + CORRELATION_BYTES) * voiced
}

// The settings as numbers, in their order on the page.
// No `From`: neither the settings nor an array is this crate's own type.
pub fn setting_numbers(settings: Held) -> [i32; SETTINGS_COUNT]
    ensures { result ≡ setting_numbers settings.settings }
{
    let s = settings.settings;
    [
        s.rate as i32,
        s.nb as i32,
        s.complexity as i32,
        s.thres1,
        s.thres2,
    ]
}

// Signed numbers from `at` on; the place after them.
fn put_numbers(page: &mut [u8], at: usize, numbers: &[i32]) -> usize
    requires { at + setting_bytes * length numbers.now ≤ length page.old }
    ensures { Put page.old at (concat (map signed numbers.now)) result page.new }
{
    let mut end = at;
    for number in numbers {
        put_i32(page, end, *number);
        end += SETTING_BYTES;
    }
    end
}

// The settings' section at the front of the page; the place after it.
fn put_settings(page: &mut [u8], settings: Held) -> usize
    requires { frames_at ≤ length page.old }
    ensures { Put page.old 0 (section (setting_entries settings.settings)) result page.new }
{
    put_u32(page, 0, SETTINGS_COUNT as u32);
    put_numbers(page, COUNT_BYTES, &setting_numbers(settings))
}

// What a sheet is made of, so that it can be written without another test: settings and rows that a sheet can hold, no more than it may have, and how many of them are voiced.
#[derive(Clone, Copy)]
pub struct Sheet<'a> {
    pub settings: Held,
    // the rows are the table's first, as many as there are frames: a table and a count, since the definitions take rows so, and the slice of the rows alone would be no plainer
    pub table: &'a [i32],
    pub frames: usize,
    pub voiced: usize,
    pub ghost whole: { frames * row_size ≤ length table.now },
    pub ghost few: { frames ≤ most_frames },
    pub ghost rows: { (i : ℕ) → i < frames → row_holds settings.settings (row_at table.now i) ≡ true },
    pub ghost counted: { voiced ≡ length (section_entries Pairs (rows_of table.now frames)) },
}

impl Sheet<'_> {
    // The bytes of the sheet.
    #[tactic(auto, using(crate::specs::SheetLaws::length_rows, crate::specs::SheetLaws::length_sheet, crate::specs::SheetLaws::section_entries_le))]
    pub fn length(self) -> usize
        ensures { result ≡ length (sheet self.entry.settings.settings (rows_of self.entry.table.now self.entry.frames)) }
    {
        sheet_length(self.frames, self.voiced)
    }

    // How many of the rows have an entry in the section.
    #[tactic(auto, using(crate::specs::SheetLaws::length_rows, crate::specs::SheetLaws::verdicts_count, crate::specs::SheetLaws::correlations_count))]
    fn entries(self, which: Section) -> usize
        ensures { result ≡ length (section_entries which (rows_of self.entry.table.now self.entry.frames)) }
    {
        match which {
            Section::Verdicts => self.frames,
            Section::Pairs => self.voiced,
            Section::Correlations => self.voiced,
        }
    }

    // A section of the rows, from `at` on: the count of its entries, then the entries; the place after it.
    fn put_section(self, page: &mut [u8], at: usize, which: Section) -> usize
        requires { at + length (section (section_entries which (rows_of self.table.now self.frames))) ≤ length page.old }
        ensures { Put page.old at (section (section_entries which (rows_of self.entry.table.now self.entry.frames))) result page.new }
    {
        put_u32(page, at, self.entries(which) as u32);
        let mut end = at + COUNT_BYTES;
        // by the rows' numbers, as the table is read: a chunk of eight numbers would still have to be read as a row, and is no plainer
        for i in 0..self.frames {
            end = which.put_row(page, end, get_row(self.table, i));
        }
        end
    }

    // The whole sheet at the front of the page; the place after it.
    pub fn put(self, page: &mut [u8]) -> usize
        requires { length (sheet self.settings.settings (rows_of self.table.now self.frames)) ≤ length page.old }
        ensures { Put page.old 0 (sheet self.entry.settings.settings (rows_of self.entry.table.now self.entry.frames)) result page.new }
    {
        let at = put_settings(page, self.settings);
        let at = self.put_section(page, at, Section::Verdicts);
        let at = self.put_section(page, at, Section::Pairs);
        self.put_section(page, at, Section::Correlations)
    }
}
