// Runs the threshold call on a list of cases from standard input and prints, for each kind, how many it answers as the source's steps do.
// A case is seven numbers of 4 bytes each, little-endian: the kind (0 in range, 1 out of range, 2 random), order, activity, type and tilt, the refusal's number or 0, and the
// threshold (0 where refused).
#![tactic(auto)]

ghost use Rattle.std.specs.Prelude.{true, [], ◌∷◌, ◌≡◌};
ghost use Rattle.answers.specs.Answer.{answer_numbers};
ghost use Rattle.refusals.specs.Refusals.{told};
ghost use Rattle.cases_io.specs.Little.{u32_at, i32_at};
ghost use Rattle.speech_threshold.specs.Threshold.{threshold_call, threshold_answer_numbers};

use cases_io::{i32_at, over_list, replay, u32_at};
use refusals::Refusal;
use speech_threshold::Speech;
use std::io;
use std::io::Write;

// The kinds of cases: all four numbers in their ranges, one out of its range, and numbers at random.
#[derive(Clone, Copy, PartialEq)]
enum Kind {
    InRange,
    OutOfRange,
    Random,
}

// The kind of a case, or none where it is of no kind. The numbers are the list's own, so a match says which is which.
fn kind_of(case: &[u8]) -> Option<Kind> {
    match i32_at(case, 0) {
        0 => Some(Kind::InRange),
        1 => Some(Kind::OutOfRange),
        2 => Some(Kind::Random),
        _ => None,
    }
}

// Whether the answer is this number, with this threshold where the number is 0.
// A number, as the list has it; 0 is no refusal.
fn says(answer: Result<i32, Refusal>, number: usize, threshold: i32) -> bool
    ensures { result ≡ true → threshold_answer_numbers (told answer) ≡ answer_numbers number (threshold ∷ []) }
{
    match answer {
        Ok(value) => number == 0 && value == threshold,
        Err(refusal) => number != 0 && refusal.number() == number,
    }
}

// Whether the call answers the case as the list does.
fn agrees(case: &[u8]) -> bool
    ensures { result ≡ true → threshold_answer_numbers (threshold_call (i32_at case.now 4) (i32_at case.now 8) (i32_at case.now 12) (i32_at case.now 16))
        ≡ answer_numbers (u32_at case.now 20) (i32_at case.now 24 ∷ []) }
{
    let signal_type = i32_at(case, 12);
    let speech = Speech {
        order: i32_at(case, 4),
        activity: i32_at(case, 8),
        tilt: i32_at(case, 16),
    };
    let number = u32_at(case, 20);
    let threshold = i32_at(case, 24);
    says(speech.threshold(signal_type), number, threshold)
}

// Counts the cases of one kind and prints the line.
// A function of the program's own: one for every kind of case would take the finder of the kind, the answer and the size besides, for a closure of one line.
fn replay_kind<W: Write>(output: &mut W, list: &[u8], kind: Kind, name: &[u8]) -> io::Result<()> {
    replay(
        output,
        name,
        list,
        |_| 28,
        |case| (kind_of(case) == Some(kind)).then(|| agrees(case)),
    )
}

// A line for each kind.
fn replay_all<W: Write>(output: &mut W, list: &[u8]) -> io::Result<()> {
    replay_kind(output, list, Kind::InRange, b"in range:")?;
    replay_kind(output, list, Kind::OutOfRange, b"out of range:")?;
    replay_kind(output, list, Kind::Random, b"random:")
}

// A main is its program's list and what is done with it: `over_list` has all that the replaying programs share.
fn main(rt: HostRuntime) -> io::Result<()> {
    over_list(&mut rt.stdin(), |list| replay_all(&mut rt.stdout(), list))
}
