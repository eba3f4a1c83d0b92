// What a page holds, read by place: whether it is a sheet, its settings, its frames and their rows.
#![tactic(auto)]

ghost use Rattle.std.specs.Prelude.{true, cond, ◌&&◌, ◌≡◌, ◌+◌, ◌*◌, ◌<◌, ◌≤◌, length, ◌↔◌, IsSome, IfSome, IfNone, Some, None, IfOk};
ghost use Rattle.refusals.specs.Refusals.{number_told};
ghost use Rattle.std.proofs.lemmas.List.Edits.{sets};
ghost use Rattle.sheet_page.specs.Page.{sheet_settings, frames_in, voiced_before, voiced_in, row_in, head_good, sizes_good, rows_good, page_no, rows_in, numbers_of};
ghost use Rattle.pitch_table.specs.Row.{row_size};
ghost use Rattle.sheet_sections.specs.Sheet.{verdicts_at};

use pitch_settings::{Held, Settings};
use pitch_table::{MOST_FRAMES, Row, put_row};
use refusals::Refusal;
use sheet_bytes::{i32_at, u16_at, u32_at};
use sheet_rows::row_of;
use sheet_sections::{
    COMPLEXITY_AT, CORRELATION_BYTES, CORRELATIONS_AT, FRAMES_AT, INDEX_BYTES, NB_AT, PAIR_BYTES,
    PAIRS_AT, RATE_AT, SETTINGS_COUNT, THRES1_AT, THRES2_AT, VERDICTS_AT, sheet_length,
};

// The settings of a page that has them.
#[tactic(auto, unfolding(crate::specs::Page::sheet_settings))]
fn settings_at(page: &[u8]) -> Settings
    requires { verdicts_at ≤ length page.now }
    ensures { result ≡ sheet_settings page.now }
{
    Settings {
        rate: u32_at(page, RATE_AT) as usize,
        nb: u32_at(page, NB_AT) as usize,
        complexity: u32_at(page, COMPLEXITY_AT) as usize,
        thres1: i32_at(page, THRES1_AT),
        thres2: i32_at(page, THRES2_AT),
    }
}

// The settings of a page that begins as a sheet does: as many settings as a sheet has, which it can hold, and a frame count that a sheet may have.
#[tactic(auto, using(crate::specs::PageLaws::head_means, crate::specs::PageLaws::head_yes, refusals::specs::RefusalsLaws::number_positive), unfolding(crate::specs::Page::frames_in))]
fn head(page: &[u8]) -> Option<Held>
    ensures good { IsSome result ↔ (head_good page.now ≡ true) }
    ensures settings { IfSome result (λ s. s.settings ≡ sheet_settings page.now) }
{
    if page.len() < VERDICTS_AT {
        return None;
    }
    if u32_at(page, 0) as usize != SETTINGS_COUNT {
        return None;
    }
    if u32_at(page, FRAMES_AT) as usize > MOST_FRAMES {
        return None;
    }
    settings_at(page).held().ok()
}

// How many of the first verdicts are 0. By the page and a count, as the definition counts: over the verdicts as a slice of their own, which was tried,
// the proof of the sections stayed open at five places.
#[tactic(auto, using(crate::specs::PageLaws::voiced_counted))]
fn voiced_in(page: &[u8], frames: usize) -> usize
    requires { verdicts_at + frames ≤ length page.now }
    ensures { result ≡ voiced_before page.now frames }
{
    page[VERDICTS_AT..VERDICTS_AT + frames]
        .iter()
        .filter(|verdict| **verdict == 0)
        .count()
}

// A page whose sections have the sizes of a sheet's, with what they say: `Sections::of` makes them. Some row may still be one that no sheet has.
#[derive(Clone, Copy)]
pub struct Sections<'a> {
    pub page: &'a [u8],
    pub settings: Held,
    pub frames: usize,
    // how many of the frames are voiced
    pub voiced: usize,
    pub ghost begins: { head_good page.now ≡ true },
    pub ghost sized: { sizes_good page.now ≡ true },
    pub ghost settings_read: { settings.settings ≡ sheet_settings page.now },
    pub ghost frames_read: { frames ≡ frames_in page.now },
    pub ghost voiced_read: { voiced ≡ voiced_in page.now },
}

impl Sections<'_> {
    // The sections of the page, where no byte is missing and none follows, and the pairs and the correlations number the voiced verdicts.
    #[tactic(auto, using(crate::specs::PageLaws::head_means, crate::specs::PageLaws::sizes_means, crate::specs::PageLaws::sizes_yes, crate::specs::PageLaws::voiced_in_le), unfolding(crate::specs::Page::frames_in, crate::specs::Page::voiced_in, crate::specs::Page::pairs_from, crate::specs::Page::correlations_from))]
    pub fn of(page: &[u8]) -> Option<Sections>
        ensures good { IsSome result ↔ ((head_good page.now && sizes_good page.now) ≡ true) }
        ensures page { IfSome result (λ s. s.page.now ≡ page.now) }
    {
        let settings = head(page)?;
        let frames = u32_at(page, FRAMES_AT) as usize;
        if page.len() < VERDICTS_AT + frames {
            return None;
        }
        let voiced = voiced_in(page, frames);
        if page.len() != sheet_length(frames, voiced) {
            return None;
        }
        if u32_at(page, VERDICTS_AT + frames) as usize != voiced {
            return None;
        }
        if u32_at(page, PAIRS_AT + frames + PAIR_BYTES * voiced) as usize != voiced {
            return None;
        }
        Some(Sections {
            page,
            settings,
            frames,
            voiced,
        })
    }

    // The sections of a page of which it is known that they have these sizes: nothing is tested again.
    #[tactic(auto, using(crate::specs::PageLaws::head_means, crate::specs::PageLaws::sizes_means, crate::specs::PageLaws::voiced_in_le), unfolding(crate::specs::Page::frames_in, crate::specs::Page::voiced_in))]
    pub fn of_sized(page: &[u8]) -> Sections
        requires { (head_good page.now ≡ true) × (sizes_good page.now ≡ true) }
        ensures { result.page.now ≡ page.now }
    {
        let held = Held {
            settings: settings_at(page),
        };
        let frames = u32_at(page, FRAMES_AT) as usize;
        let counted = voiced_in(page, frames);
        Sections {
            page,
            settings: held,
            frames,
            voiced: counted,
        }
    }

    // Row i; `seen` rows before it are voiced.
    fn row(self, i: usize, seen: usize) -> Option<Row>
        requires { (i < self.frames) × (seen ≡ voiced_before self.page.now i) }
        ensures { result ≡ row_in self.entry.page.now i }
    {
        let verdict = self.page[VERDICTS_AT + i] as i32;
        if verdict != 0 {
            return row_of(self.settings, verdict, 0, 0, 0);
        }
        let pair = PAIRS_AT + self.frames + PAIR_BYTES * seen;
        let index = u16_at(self.page, pair) as i32;
        let contour = self.page[pair + INDEX_BYTES] as i32;
        let correlation = i32_at(
            self.page,
            CORRELATIONS_AT + self.frames + PAIR_BYTES * self.voiced + CORRELATION_BYTES * seen,
        );
        row_of(self.settings, 0, index, contour, correlation)
    }

    // Row i, and how many rows are voiced up to it and with it; `seen` rows before it are.
    fn row_and_seen(self, i: usize, seen: usize) -> Option<(Row, usize)>
        requires { (i < self.frames) × (seen ≡ voiced_before self.page.now i) }
        ensures row { IfSome result (λ r. row_in self.entry.page.now i ≡ Some r.0) }
        ensures seen { IfSome result (λ r. r.1 ≡ voiced_before self.entry.page.now (i + 1)) }
        ensures none { IfNone result (row_in self.entry.page.now i ≡ None) }
    {
        let r = self.row(i, seen)?;
        if r.verdict == 0 {
            Some((r, seen + 1))
        } else {
            Some((r, seen))
        }
    }

    // Reads every row: refusal 9 at the first that no sheet has.
    #[tactic(auto, using(crate::specs::PageLaws::voiced_none, crate::specs::PageLaws::voiced_le, crate::specs::PageLaws::rows_no, crate::specs::PageLaws::rows_yes))]
    fn check_rows(self) -> Result<(), Refusal>
        ensures { number_told result ≡ cond (rows_good self.entry.page.now) 0 9 }
    {
        let mut seen = 0;
        // by the frames' numbers: where a row stands follows from its frame and from how many before it are voiced
        for i in 0..self.frames {
            let Some((_, next)) = self.row_and_seen(i, seen) else {
                return Err(Refusal::Malformed);
            };
            seen = next;
        }
        Ok(())
    }
}

// A page that is a sheet: `SheetPage::of` makes them.
#[derive(Clone, Copy)]
pub struct SheetPage<'a> {
    pub sections: Sections<'a>,
    pub ghost readable: { rows_good sections.page.now ≡ true },
}

impl SheetPage<'_> {
    // The page as a sheet, or refusal 9 where it is none.
    #[tactic(auto, unfolding(crate::specs::Page::page_no, crate::specs::Page::well_formed))]
    pub fn of(page: &[u8]) -> Result<SheetPage, Refusal>
        ensures number { number_told result ≡ page_no page.now }
        ensures page { IfOk result (λ s. s.sections.page.now ≡ page.now) }
    {
        let sections = Sections::of(page).ok_or(Refusal::Malformed)?;
        sections.check_rows()?;
        Ok(SheetPage { sections })
    }

    // The rows of the sheet, written whole.
    #[tactic(auto, using(crate::specs::PageLaws::voiced_none, crate::specs::PageLaws::voiced_le, crate::specs::PageLaws::never_bad, crate::specs::PageLaws::put_none))]
    pub fn put_rows(self, table: &mut [i32])
        requires { self.sections.frames * row_size ≤ length table.old }
        ensures { table.new ≡ sets table.old 0 (numbers_of (rows_in self.entry.sections.page.now)) }
    {
        let mut seen = 0;
        // by the frames' numbers, as above
        for i in 0..self.sections.frames {
            let Some((r, next)) = self.sections.row_and_seen(i, seen) else {
                return;
            };
            put_row(table, i, r);
            seen = next;
        }
    }
}
