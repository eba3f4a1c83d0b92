// A pitch track that is fed by deliveries of samples: start and deliver.
#![tactic(auto)]

ghost use Rattle.std.specs.Prelude.{Ok, ◌≡◌, [], ◌∷◌, ◌++◌, ◌+◌, ◌*◌, ◌<◌, ◌≤◌, length, take, drop, pos, cond, eqb};
ghost use Rattle.answers.specs.Answer.{answer_numbers};
ghost use Rattle.refusals.specs.Refusals.{told};
ghost use Rattle.pitch_settings.specs.Settings.{frame_length, hop_length};
ghost use Rattle.pitch_table.specs.Row.{row_size};
ghost use Rattle.track_settings.specs.TrackSettings.{stored_settings};
ghost use Rattle.track_paper.specs.Paper.{F, track_answer_numbers, row_type, after, previous, paper_numbers};
ghost use Rattle.pitch_track.specs.Step.{said, start_no, start_call, delivery_no, frames_after, deliver_call, delivery_outcome};

mod pending;

use pending::Pending;
use pitch_settings::{LONGEST_FRAME, Settings};
use pitch_table::{Row, put_row};
use refusals::Refusal;
use track_paper::{Prev, track_limit};
use track_refusal::{Delivery, Framing};
use track_settings::{AnalysedTrack, TrackSettings};

// A track's state: its settings, the frames done, the samples held after the last frame's start (the first `count` places of `held`), and what the last row left to the next. A program keeps it
// as plain numbers, goes in and comes back by value, and a state that breaks the rules is refused: so `count` stands beside `held`, and no type keeps what they must be.
#[derive(Drop)]
pub struct Track {
    pub settings: TrackSettings,
    pub frames: usize,
    pub held: [i16; LONGEST_FRAME],
    pub count: usize,
    pub prev: Prev,
}

// What a call says, the frames then done or the refusal, and the track that it hands back, after a refusal too.
#[derive(Drop)]
pub struct Answered {
    pub answer: Result<usize, Refusal>,
    pub track: Track,
}

// The type of a row's signal: 2 where it is voiced, and else 1. Both are numbers, since a table and a track's state can hold any.
fn row_type(r: Row) -> i32
    ensures { result ≡ row_type r }
{
    if r.verdict == 0 { 2 } else { 1 }
}

// The lag of a row's last subframe, of frames with 2 or 4 of them.
fn last_lag(nb: usize, r: Row) -> i32
    ensures { result ≡ cond (eqb nb 2) r.lag1 r.lag3 }
{
    if nb == 2 { r.lag1 } else { r.lag3 }
}

// What a row leaves to the next.
#[tactic(auto, unfolding(track_paper::specs::Paper::after))]
fn left_by(s: Settings, r: Row) -> Prev
    ensures { result ≡ after s r }
{
    Prev {
        lag: last_lag(s.nb, r),
        correlation: r.correlation,
        signal: row_type(r),
    }
}

// `new` rows, from row `frames` of the table on, each with the threshold that the row before it gives. The two counts stand beside the table: where no frame is new, it may have fewer than
// `frames` rows, so that no part of it could be lent in their place.
fn put_rows(
    k: AnalysedTrack,
    pending: Pending,
    table: &mut [i32],
    frames: usize,
    new: usize,
    p: Prev,
) -> Prev
    requires { (new ≡ F (stored_settings k.settings) (length pending.held.now + length pending.samples.now)) × (0 < new → (frames + new) * row_size ≤ length table.old) }
    ensures value { result ≡ previous k.settings (pending.entry.held.now ++ pending.entry.samples.now) p new }
    ensures table_after { table.new
        ≡ take (frames * row_size) table.old
        ++ paper_numbers k.settings (pending.entry.held.now ++ pending.entry.samples.now) p new
        ++ drop ((frames + new) * row_size) table.old }
{
    let s = k.stored();
    let hop = s.hop_length();
    let mut q = p;
    // i is the frame: its samples begin at i hops, and its row is the i-th of the new ones
    for i in 0..new {
        let of_row = k.of_row(q.signal);
        let row = pending.row(of_row, i * hop, q);
        put_row(table, frames + i, row);
        q = left_by(s.settings, row);
    }
    q
}

impl Track {
    // A fresh track of these settings, or refusals 1 to 3 and 11.
    #[tactic(auto, unfolding(crate::specs::Step::start_call, crate::specs::Step::fresh_track, crate::specs::Step::zeros, track_paper::specs::Paper::answer_of))]
    pub fn start(k: TrackSettings) -> Answered
        ensures value { said result ≡ start_call k }
        ensures answer_value { track_answer_numbers (told result.answer) ≡ answer_numbers (start_no k) (pos 0 ∷ []) }
    {
        Answered {
            answer: k.analysed(0).map(|_| 0),
            track: Track {
                settings: k,
                frames: 0,
                held: [0; LONGEST_FRAME],
                count: 0,
                prev: Prev {
                    lag: 0,
                    correlation: 0,
                    signal: 0,
                },
            },
        }
    }

    // Takes a delivery of samples, writes the row of each frame that it finishes into the table, and hands back the advanced track, since a state goes in and comes back by value; refused with
    // 1 to 3, 11, 6, 9 or 7, in this order, it changes nothing.
    pub fn deliver(mut self, samples: &[i16], table: &mut [i32]) -> Answered
        ensures table_after { delivery_outcome result table.new ≡ deliver_call self table.old samples.now }
        ensures answer_value { track_answer_numbers (told result.answer) ≡ answer_numbers (delivery_no self table.old samples.now) (pos (frames_after self samples.now) ∷ []) }
    {
        let delivery = Delivery {
            signal_type: self.prev.signal,
            frames: self.frames,
            count: self.count,
            samples: samples.len(),
            numbers: table.len(),
        };
        // a refusal returns here: where the answer is one of two arms, its track is copied once more
        let k = match delivery.check(track_limit(), self.settings) {
            Ok(k) => k,
            Err(refusal) => {
                return Answered {
                    answer: Err(refusal),
                    track: self,
                };
            }
        };
        let framing = Framing::from(k.stored());
        let n = self.count + samples.len();
        let new = framing.frames_in(n);
        let from = new * framing.hop;
        // a copy: where a part of the track itself is lent, more is copied
        let held = self.held;
        let pending = Pending {
            held: &held[..self.count],
            samples,
        };
        let prev = put_rows(k, pending, table, self.frames, new, self.prev);
        let left = n - from;
        let rest = pending.window(from, left);
        self.frames += new;
        self.held = rest;
        self.count = left;
        self.prev = prev;
        Answered {
            answer: Ok(self.frames),
            track: self,
        }
    }
}
