// The track on paper (docs/SCOPE.md, Track): what a row leaves to the next, what limits a track, and what is said of a delivery. `specs/Paper.antt` has what they mean.
#![tactic(auto)]

ghost use Rattle.std.specs.Prelude.{◌≡◌};
ghost use Rattle.refusals.specs.Refusals.{told};
ghost use Rattle.track_paper.specs.Paper.{numbered, track_limit, answer_no};

use pitch_table::MOST_FRAMES;
use refusals::Refusal;

// What a row leaves to the next: the lag of its last subframe, its correlation, and the type of its signal (2 voiced, 1 not; 0 before the first row), a number, since a state that is handed
// in can have any.
#[derive(Clone, Copy, PartialEq, Eq)]
pub struct Prev {
    pub lag: i32,
    pub correlation: i32,
    pub signal: i32,
}

// How many frames a track may have, and how a delivery that would make more is refused: with a refusal, or with any number of the caller's own.
// A type parameter, since both were promised: a refusal alone would ask more of callers.
#[derive(Clone, Copy, PartialEq, Eq)]
pub struct Limit<R> {
    pub frames: usize,
    pub refusal: R,
}

// The limit of a track by itself: 4,096 frames.
pub fn track_limit() -> Limit<Refusal>
    ensures { numbered result ≡ track_limit }
{
    Limit {
        frames: MOST_FRAMES,
        refusal: Refusal::LongTrack,
    }
}

// What was said of a start or a delivery, as one number: 0, or the refusal's.
// Nothing here calls it: it stays, since it was promised.
pub fn answer_number(answer: Result<usize, Refusal>) -> usize
    ensures { result ≡ answer_no (told answer) }
{
    match answer {
        Ok(_) => 0,
        Err(refusal) => refusal.number(),
    }
}

// The same of an answer whose refusal is any number of the caller's own, as the limit's can be.
// A function of its own, since both were promised: a refusal alone would ask more of callers.
pub fn number_of(answer: Result<usize, usize>) -> usize
    ensures { result ≡ answer_no answer }
{
    answer.err().unwrap_or(0)
}
