// What the calls that answer in cases share: their answers in numbers, and why a frame has no pitch.
#![tactic(auto)]

// Why a frame has no pitch: it is unvoiced, or a divisor that was reached is zero.
#[derive(Clone, Copy, Debug, PartialEq, Eq)]
pub enum NoPitch {
    Unvoiced,
    ZeroDivisor,
}
