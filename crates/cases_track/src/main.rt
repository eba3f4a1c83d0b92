// Runs the track on a list of cases from standard input and prints, for each kind of case, how many it answers as docs/SCOPE.md and the source say.
// A record is its kind (a byte), its body's length (4 bytes) and its body: a text (text.rt) of the program `track` for kinds 0 to 7 and of `track_options` for kinds
// 28 to 31, a list of deliveries (deliveries.rt) for kinds 8 to 27. All numbers are little-endian.
#![tactic(auto)]

ghost use Rattle.std.specs.Prelude.{◌≤◌};
ghost use Rattle.std.proofs.Common.{rules};

use cases_io::{LIST_BYTES, Records, byte_at, kind_of, read_full, replay_input, report, u32_at};
use recording_head::Head;
use rooms::room;
use std::io;
use std::io::Read;

mod deliveries;
mod text;

// What the body of a record holds: a text for an input with this head, or a list of deliveries.
#[derive(Clone, Copy)]
enum Body {
    Text(Head),
    Deliveries,
}

// What a record of this kind holds. The numbers are the list's own, so a match says which is which.
fn body_of(kind: u8) -> Body {
    match kind {
        0..=7 => Body::Text(Head::Plain),
        8..=27 => Body::Deliveries,
        _ => Body::Text(Head::Options),
    }
}

// Reads a body and tells whether the track agrees with it. A body that is cut short does not.
fn record_agrees<R: Read>(input: &mut R, holds: Body, size: usize) -> io::Result<bool>
    requires { size ≤ 1048576 }
{
    let mut body = room::<u8, LIST_BYTES>(0);
    let got = read_full(input, &mut body[..size])?;
    if got != size {
        return Ok(false);
    }
    match holds {
        Body::Text(head) => Ok(text::agrees(head, &body, size)),
        Body::Deliveries => Ok(deliveries::agrees(&body, size)),
    }
}

struct Cases;

impl Records<5, 32> for Cases {
    // A body that is too long ends the list too.
    fn kind(head: &[u8; 5]) -> Option<usize> {
        if u32_at(head, 1) > 1048576 {
            return None;
        }
        kind_of(head, 32)
    }

    fn agrees<R: Read>(input: &mut R, head: &[u8; 5]) -> io::Result<bool> {
        let size = u32_at(head, 1).min(1048576);
        record_agrees(input, body_of(byte_at(head, 0)), size)
    }

    ghost few = { Prim.search rules };
}

// What stands here is the program's own: its records, the bytes of a head, how many kinds there are and how many records are read at most.
fn main(rt: HostRuntime) -> io::Result<()> {
    let tallies = replay_input::<Cases, 5, 32, _>(&mut rt.stdin(), 100000)?;
    report(&mut rt.stdout(), &tallies)
}
