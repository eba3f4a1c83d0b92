// Rows that a sheet can hold: the row that a verdict, a pair and a correlation stand for, and whether a row is one of those.
#![tactic(auto)]

ghost use Rattle.std.specs.Prelude.{◌≡◌};
ghost use Rattle.answers.specs.Answer.{answer_numbers};
ghost use Rattle.sheet_rows.specs.Rows.{row_of, row_read_numbers, row_no, row_values, row_holds};

use pitch_settings::Held;
use pitch_table::{Pair, Row};

// The row that these numbers stand for, where they stand for one. Only a voiced one has a pair and a correlation.
// Plain numbers, and no enum and no struct of them: a table and a page can hold any, and it is here that they are judged. What is judged is a `Pair` and a row.
pub fn row_of(s: Held, verdict: i32, index: i32, contour: i32, correlation: i32) -> Option<Row>
    ensures value { result ≡ row_of s.settings verdict index contour correlation }
    ensures numbers { row_read_numbers result ≡ answer_numbers (row_no s.settings verdict index contour) (row_values s.settings verdict index contour correlation) }
{
    match verdict {
        0 => Some(Pair::of(s, index, contour)?.row(correlation)),
        1 | 2 => Some(Row::unpitched(verdict)),
        _ => None,
    }
}

// Whether a sheet can hold the row: it is the one that its own verdict, pair and correlation stand for.
pub fn row_holds(s: Held, r: Row) -> bool
    ensures { result ≡ row_holds s.settings r }
{
    row_of(s, r.verdict, r.index, r.contour, r.correlation) == Some(r)
}
