// A row as its eight numbers, and eight numbers as a row.
ghost use Rattle.std.specs.Prelude.{◌≡◌};
ghost use Rattle.pitch_table.specs.Row.{numbers, row_at};

use crate::{ROW_SIZE, Row};

// A row's numbers, in their order in a table.
impl From<Row> for [i32; ROW_SIZE] {
    ghost from_gives = { λ r xs. xs ≡ numbers r };

    fn from(r: Row) -> [i32; ROW_SIZE] {
        [
            r.verdict,
            r.index,
            r.contour,
            r.correlation,
            r.lag0,
            r.lag1,
            r.lag2,
            r.lag3,
        ]
    }
}

// The row of these numbers.
impl From<[i32; ROW_SIZE]> for Row {
    ghost from_gives = { λ xs r. r ≡ row_at xs 0 };

    #[tactic(auto, unfolding(crate::specs::Row::row_at))]
    fn from(numbers: [i32; ROW_SIZE]) -> Row {
        let [verdict, index, contour, correlation, lag0, lag1, lag2, lag3] = numbers;
        Row {
            verdict,
            index,
            contour,
            correlation,
            lag0,
            lag1,
            lag2,
            lag3,
        }
    }
}
