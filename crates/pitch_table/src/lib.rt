// Rows of a table, eight numbers each, row after row; and the row that a pair stands for.
#![tactic(auto)]

ghost use Rattle.std.specs.Prelude.{◌≡◌, ◌+◌, ◌*◌, ◌≤◌, length};
ghost use Rattle.std.proofs.lemmas.List.Edits.{sets};
ghost use Rattle.pitch_table.specs.Row.{row_size, numbers, row_at, unpitched_row};

mod pair;
mod row_numbers;

pub use pair::Pair;

// How many numbers a row has.
pub const ROW_SIZE: usize = 8;

// How many frames a track, and so a sheet, has at most.
pub const MOST_FRAMES: usize = 4096;

// The verdict of the row of an unvoiced frame.
pub const UNVOICED: i32 = 1;

// The verdict of the row of a frame in which a divisor that was reached is zero.
pub const ZERO_DIVISOR: i32 = 2;

// A row of a table: what is said of one frame.
#[derive(Clone, Copy, PartialEq, Eq)]
pub struct Row {
    // 0 voiced, 1 unvoiced, 2 zero divisor: a number, since a table that is handed in can hold any
    pub verdict: i32,
    // the lag index: the lag is 2 ms and so many samples
    pub index: i32,
    // the contour index: which codebook entry moves the subframes' lags
    pub contour: i32,
    // Q15
    pub correlation: i32,
    // the lag of each subframe, in samples; 0 where there is none
    // four fields and no array: customers and definitions name them
    pub lag0: i32,
    pub lag1: i32,
    pub lag2: i32,
    pub lag3: i32,
}

impl Row {
    // The row's numbers, in their order in a table.
    pub fn numbers(self) -> [i32; ROW_SIZE]
        ensures { result ≡ numbers self }
    {
        self.into()
    }

    // The row of a frame without pitch, from its verdict: UNVOICED or ZERO_DIVISOR. Any number is taken, as a row's verdict can be any.
    #[tactic(auto, unfolding(crate::specs::Row::unpitched_row))]
    pub fn unpitched(verdict: i32) -> Row
        ensures { result ≡ unpitched_row verdict }
    {
        Row {
            verdict,
            index: 0,
            contour: 0,
            correlation: 0,
            lag0: 0,
            lag1: 0,
            lag2: 0,
            lag3: 0,
        }
    }
}

// Writes row i of the table.
pub fn put_row(table: &mut [i32], i: usize, r: Row)
    requires { i * row_size + row_size ≤ length table.old }
    ensures { table.new ≡ sets table.old (i * row_size) (numbers r) }
{
    let at = i * ROW_SIZE;
    table[at..at + ROW_SIZE].copy_from_slice(&r.numbers());
}

// Reads row i of the table.
#[tactic(auto, unfolding(crate::specs::Row::row_at))]
pub fn get_row(table: &[i32], i: usize) -> Row
    requires { i * row_size + row_size ≤ length table.now }
    ensures { result ≡ row_at table.now i }
{
    let at = i * ROW_SIZE;
    let mut numbers = [0; ROW_SIZE];
    numbers.copy_from_slice(&table[at..at + ROW_SIZE]);
    numbers.into()
}
