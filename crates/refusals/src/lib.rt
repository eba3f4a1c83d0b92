// Why a call refuses: the refusals of docs/SCOPE.md as one enum, with their numbers. It says nothing else: which call refuses what stands at the call.
#![tactic(auto)]

ghost use Rattle.std.specs.Prelude.{◌≡◌};
ghost use Rattle.refusals.specs.Refusals.{refusal_number};

use std::error::Error;
use std::fmt;

// Why a call refuses. What a call does not refuse it answers.
#[derive(Clone, Copy, Debug, PartialEq, Eq)]
pub enum Refusal {
    // the rate is not 8, 12 or 16 kHz
    Rate,
    // the frame has not 2 or 4 subframes
    Subframes,
    // the complexity is above 2
    Complexity,
    // the frame has too few samples
    ShortFrame,
    // there are fewer lag places than subframes
    ShortSlots,
    // the track would have too many frames
    LongTrack,
    // the table has too few rows
    ShortTable,
    // the page has too few bytes
    ShortPage,
    // a table, a sheet or a track's state breaks its rules
    Malformed,
    // the input ends within its head or within a sample
    HalfInput,
    // a number from which the second threshold is found leaves its range
    ThresholdRange,
}

impl Refusal {
    // The refusal's number, by which the programs and C name it: 1 to 11.
    pub fn number(self) -> usize
        ensures { result ≡ refusal_number self }
    {
        match self {
            Refusal::Rate => 1,
            Refusal::Subframes => 2,
            Refusal::Complexity => 3,
            Refusal::ShortFrame => 4,
            Refusal::ShortSlots => 5,
            Refusal::LongTrack => 6,
            Refusal::ShortTable => 7,
            Refusal::ShortPage => 8,
            Refusal::Malformed => 9,
            Refusal::HalfInput => 10,
            Refusal::ThresholdRange => 11,
        }
    }
}

// A refusal prints as the programs say it: `refused` and its number.
impl fmt::Display for Refusal {
    fn fmt<W: fmt::Write>(&self, f: &mut fmt::Formatter<W>) -> fmt::Result {
        let number = self.number();
        write!(f, "refused {number}")
    }
}

impl Error for Refusal {}
