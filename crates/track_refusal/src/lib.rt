// Which deliveries a running track refuses: the tests of a delivery, in their order.
#![tactic(auto)]

ghost use Rattle.std.specs.Prelude.{ℕ, ◌≡◌, ◌+◌, ◌<◌, ◌≤◌, IfOk, MatchOption};
ghost use Rattle.refusals.specs.Refusals.{number_told};
ghost use Rattle.pitch_table.specs.Row.{most_frames};
ghost use Rattle.track_paper.specs.Paper.{F, numbered};
ghost use Rattle.track_refusal.specs.Refusal.{limit, number_by, delivery_refusal};
ghost use Rattle.track_refusal.specs.declared.Objection.TheVariants.{Refused};

mod framing;

pub use framing::Framing;
use pitch_settings::Analysed;
use pitch_table::ROW_SIZE;
use refusals::Refusal;
use track_paper::Limit;
use track_settings::{AnalysedTrack, TrackSettings};

// A delivery to a track, by the numbers that decide whether it is refused: those of the track's state, which can be wrong, and the sizes of what is lent.
#[derive(Clone, Copy)]
pub struct Delivery {
    // the type of the signal before the track's next row: any number, since a state can have any, and `check` judges it
    pub signal_type: i32,
    // the frames that the track has done
    pub frames: usize,
    // the samples that it holds
    pub count: usize,
    // the samples that are delivered
    pub samples: usize,
    // the numbers of the table
    pub numbers: usize,
}

// What speaks against a delivery: the limit on the frames, whose refusal the caller names, or one of the refusals.
// An enum of its own, made by `?`: an Option of a refusal would not say that None is the limit.
#[derive(Clone, Copy)]
enum Objection {
    OverLimit,
    Refused(Refusal),
}

impl From<Refusal> for Objection {
    ghost from_gives = { λ r o. o ≡ Refused r };

    fn from(refusal: Refusal) -> Objection {
        Objection::Refused(refusal)
    }
}

impl Delivery {
    // The frames that the delivery finishes, or None where the track would have over `most`.
    fn new_frames(self, most: usize, s: Analysed) -> Option<usize>
        requires { most ≤ most_frames }
        ensures { MatchOption result (most < self.frames + F s.settings (self.count + self.samples)) (λ n. (n ≡ F s.settings (self.count + self.samples)) × (self.frames + n ≤ most)) }
    {
        let n = self.count.checked_add(self.samples)?;
        let new = Framing::from(s).frames_in(n);
        if self.frames > most {
            return None;
        }
        if new > most - self.frames {
            return None;
        }
        Some(new)
    }

    // The track's settings as analysed ones, or what speaks against the delivery, where the track may have `most` frames.
    fn judge(self, most: usize, k: TrackSettings) -> Result<AnalysedTrack, Objection>
        requires { most ≤ most_frames }
        ensures number { (over : ℕ) → number_by over result ≡ delivery_refusal (limit most over) k self.signal_type self.frames self.count self.samples self.numbers }
        ensures settings { IfOk result (λ a. a.settings ≡ k) }
    {
        let track = k.analysed(self.signal_type)?;
        let s = track.stored();
        let Some(new) = self.new_frames(most, s) else {
            return Err(Objection::OverLimit);
        };
        if self.count >= s.frame_length() {
            return Err(Objection::Refused(Refusal::Malformed));
        }
        if new > 0 && self.frames + new > self.numbers / ROW_SIZE {
            return Err(Objection::Refused(Refusal::ShortTable));
        }
        Ok(track)
    }

    // The track's settings as analysed ones, or the refusal of the delivery: that of the settings (1, 2, 3 or 11), the limit's, 9, or 7 where there are new frames and the table is short.
    pub fn check(self, limit: Limit<Refusal>, k: TrackSettings) -> Result<AnalysedTrack, Refusal>
        requires { limit.frames ≤ most_frames }
        ensures number { number_told result ≡ delivery_refusal (numbered limit) k self.signal_type self.frames self.count self.samples self.numbers }
        ensures settings { IfOk result (λ a. a.settings ≡ k) }
    {
        match self.judge(limit.frames, k) {
            Ok(settings) => Ok(settings),
            Err(Objection::OverLimit) => Err(limit.refusal),
            Err(Objection::Refused(refusal)) => Err(refusal),
        }
    }

    // The number of the delivery's refusal, or 0: the same, where the limit says any number in place of a refusal.
    // Any number, as was promised: a refusal in its place would ask more of callers.
    pub fn refusal_number(self, limit: Limit<usize>, k: TrackSettings) -> usize
        requires { limit.frames ≤ most_frames }
        ensures { result ≡ delivery_refusal limit k self.signal_type self.frames self.count self.samples self.numbers }
    {
        match self.judge(limit.frames, k) {
            Ok(_) => 0,
            Err(Objection::OverLimit) => limit.refusal,
            Err(Objection::Refused(refusal)) => refusal.number(),
        }
    }
}
