// Writes and reads sheets by a list of cases from standard input and prints, for each kind of case, how many are answered as the list says.
// A record has a head of 60 bytes: kind and call (a byte each; 0 write, 1 read), the refusal's number or 0 (2 bytes), rate, subframes and complexity (8 bytes each), the two
// thresholds (4 bytes each), the frame count (8 bytes), then, 4 bytes each, the table's length in numbers, the page's length in bytes, n and m. After it stand n numbers (4 bytes
// each) and m bytes. All are little-endian.
// For a write, settings, frame count and table are handed over, and the m bytes are the sheet that the page must begin with. For a read, the m bytes are the page, and settings, frame
// count and table must come out. A table's number i is number i modulo n of those in the record.
#![tactic(auto)]

ghost use Rattle.std.proofs.Common.{rules};

use cases_io::{
    Records, byte_at, kind_of, nth, read_full, replay_input, report, same_settings, settings_at,
    u16_at, u32_at, usize_at,
};
use pitch_settings::{Held, Settings};
use pitch_sheet::{read_sheet, write_sheet};
use pitch_table::{MOST_FRAMES, ROW_SIZE};
use refusals::Refusal;
use rooms::room;
use std::io;
use std::io::Read;

// For how long a table, a page and a record's numbers there is room: some rows more than a sheet may have, and some bytes more than the longest sheet.
const FRAMES_ROOM: usize = MOST_FRAMES + 4;

const TABLE_ROOM: usize = ROW_SIZE * FRAMES_ROOM;

const PAGE_ROOM: usize = 33000;

const NUMBERS_ROOM: usize = 4 * TABLE_ROOM;

// The calls that a case may name.
#[derive(Clone, Copy)]
enum Call {
    Write,
    Read,
}

// The call of this number; there is no third. The numbers are the list's own, so a match says which is which.
fn call_of(number: u8) -> Option<Call> {
    match number {
        0 => Some(Call::Write),
        1 => Some(Call::Read),
        _ => None,
    }
}

#[derive(Clone, Copy)]
struct Case {
    call: Option<Call>,
    // the refusal's number, or 0
    // a number, as the list has it
    number: usize,
    settings: Settings,
    frames: usize,
    // the table's length in numbers
    table: usize,
    // the page's length in bytes
    page: usize,
    // the numbers and the bytes that the record has
    numbers: usize,
    bytes: usize,
}

// What byte i of a page is before the call: never 0, and another than its neighbours.
fn page_before(i: usize) -> u8 {
    (i % 251 + 5) as u8
}

// What number i of a table is before the call: none that a row's verdict, index, contour or lag can be.
fn table_before(i: usize) -> i32 {
    (i % 65536 + 1000000) as i32
}

// Fills the places with what `told` says of each.
fn fill_by<T: Copy, F: Fn(usize) -> T>(places: &mut [T], told: F)
    requires { F.IsAlwaysCallable told }
{
    for (i, place) in places.iter_mut().enumerate() {
        *place = told(i);
    }
}

// Whether there are as many places as are new, and each holds what `told` says of it.
// A loop and not `enumerate().all(..)`, which takes five instructions more a place.
fn agree_by<T: PartialEq + Copy, F: Fn(usize) -> T>(places: &[T], new: usize, told: F) -> bool
    requires { F.IsAlwaysCallable told }
{
    for (i, place) in places.iter().enumerate() {
        if *place != told(i) {
            return false;
        }
    }
    new <= places.len()
}

fn wrote_agrees(c: Case, answer: Result<usize, Refusal>) -> bool {
    match answer {
        Ok(bytes) => c.number == 0 && bytes == c.bytes,
        Err(refusal) => refusal.number() == c.number && c.bytes == 0,
    }
}

fn got_agrees(c: Case, answer: Result<(Held, usize), Refusal>) -> bool {
    match answer {
        Ok((held, frames)) => c.number == 0
            && frames == c.frames
            && same_settings(held.settings, c.settings),
        Err(refusal) => refusal.number() == c.number && c.frames == 0,
    }
}

// A record: what its head tells, and the numbers (4 bytes each) and the bytes after it.
#[derive(Clone, Copy)]
struct Record<'a> {
    case: Case,
    numbers: &'a [u8],
    bytes: &'a [u8],
}

impl<'a> Record<'a> {
    // Number i of the table; 0 where the record has no number.
    fn number_at(self, i: usize) -> i32 {
        let count = self.numbers.len() / 4;
        if count == 0 {
            return 0;
        }
        nth(self.numbers, 0, i % count)
    }

    // What number i of a table is to be after the call that writes the first `new` of them.
    fn table_after(self, new: usize, i: usize) -> i32 {
        if i < new {
            self.number_at(i)
        } else {
            table_before(i)
        }
    }

    // What byte i of a page is to be after the call that writes the record's bytes.
    fn page_after(self, i: usize) -> u8 {
        if i < self.bytes.len() {
            byte_at(self.bytes, i)
        } else {
            page_before(i)
        }
    }

    // Whether writing the record's table does to this page what the record says.
    fn written_agrees(self, table: &mut [i32], page: &mut [u8]) -> bool {
        let c = self.case;
        fill_by(table, |i| self.number_at(i));
        fill_by(page, page_before);
        let answer = write_sheet(c.settings, c.frames, table, page);
        wrote_agrees(c, answer) && agree_by(page, c.bytes, |i| self.page_after(i))
    }

    // Whether reading the record's bytes does to the table what the record says.
    fn read_agrees(self, table: &mut [i32]) -> bool {
        let c = self.case;
        if c.frames > FRAMES_ROOM {
            return false;
        }
        let new = ROW_SIZE * c.frames;
        fill_by(table, table_before);
        let answer = read_sheet(self.bytes, table);
        got_agrees(c, answer) && agree_by(table, new, |i| self.table_after(new, i))
    }

    // A write with a table and a page of the lengths that it asks for. One that asks for too much does not agree.
    fn write_case(self) -> bool {
        let length = self.case.table;
        let room = self.case.page;
        if length > TABLE_ROOM || room > PAGE_ROOM {
            return false;
        }
        let mut table = [0i32; TABLE_ROOM];
        let mut page = [0u8; PAGE_ROOM];
        self.written_agrees(&mut table[..length], &mut page[..room])
    }

    // A read of the record's bytes, all of them, with a table of the length that it asks for.
    fn read_case(self) -> bool {
        let length = self.case.table;
        if length > TABLE_ROOM || self.case.page != self.case.bytes {
            return false;
        }
        let mut table = [0i32; TABLE_ROOM];
        self.read_agrees(&mut table[..length])
    }

    // Whether the call that the record names agrees.
    fn agrees(self) -> bool {
        match self.case.call {
            Some(Call::Write) => self.write_case(),
            Some(Call::Read) => self.read_case(),
            None => false,
        }
    }
}

fn case_of(head: &[u8]) -> Case {
    Case {
        call: call_of(byte_at(head, 1)),
        number: u16_at(head, 2) as usize,
        settings: settings_at(head, 4),
        frames: usize_at(head, 36),
        table: u32_at(head, 44),
        page: u32_at(head, 48),
        numbers: u32_at(head, 52),
        bytes: u32_at(head, 56),
    }
}

// Reads the rest of a record and tells whether the call agrees. A record that is cut short or too long does not.
fn record_agrees<R: Read>(input: &mut R, case: Case) -> io::Result<bool> {
    if case.numbers > TABLE_ROOM || case.bytes > PAGE_ROOM {
        return Ok(false);
    }
    let size = 4 * case.numbers;
    let mut numbers = room::<u8, NUMBERS_ROOM>(0);
    let mut bytes = room::<u8, PAGE_ROOM>(0);
    let got = read_full(input, &mut numbers[..size])?;
    let whole = got == size && read_full(input, &mut bytes[..case.bytes])? == case.bytes;
    let record = Record {
        case,
        numbers: &numbers[..size],
        bytes: &bytes[..case.bytes],
    };
    Ok(whole && record.agrees())
}

struct Sheets;

impl Records<60, 20> for Sheets {
    fn kind(head: &[u8; 60]) -> Option<usize> {
        kind_of(head, 20)
    }

    fn agrees<R: Read>(input: &mut R, head: &[u8; 60]) -> io::Result<bool> {
        record_agrees(input, case_of(head))
    }

    ghost few = { Prim.search rules };
}

// What stands here is the program's own: its records, the bytes of a head, how many kinds there are and how many records are read at most.
fn main(rt: HostRuntime) -> io::Result<()> {
    let tallies = replay_input::<Sheets, 60, 20, _>(&mut rt.stdin(), 1000000)?;
    report(&mut rt.stdout(), &tallies)
}
