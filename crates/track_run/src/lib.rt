// A whole run of a pitch track: a fresh start, and then deliveries one after the other.
#![tactic(auto)]

ghost use Rattle.std.specs.Prelude.{◌≡◌, [], ◌∷◌, pos, length};
ghost use Rattle.answers.specs.Answer.{answer_numbers};
ghost use Rattle.refusals.specs.Refusals.{told};
ghost use Rattle.pitch_track.specs.Step.{start_no};
ghost use Rattle.track_paper.specs.Paper.{track_answer_numbers};
ghost use Rattle.track_chain.specs.Chain.{chain};
ghost use Rattle.track_run.specs.Run.{parts, deliveries, told_all, run_outcome, run_call, EndsOnPaper};

use pitch_track::{Answered, Track};
use refusals::Refusal;
use track_settings::TrackSettings;

// Deliveries one after the other: the parts of `samples` whose lengths are `cuts`, of which one past the end has what is left. `said` gets the answer of each.
fn deliver_parts(
    mut track: Track,
    samples: &[i16],
    cuts: &[usize],
    table: &mut [i32],
    said: &mut [Result<usize, Refusal>],
) -> Track
    requires { length said.old ≡ length cuts.now }
    ensures value { result ≡ (chain track table.old (parts cuts.now samples.now)).track }
    ensures said_after { told_all said.new ≡ (chain track table.old (parts cuts.now samples.now)).said }
    ensures table_after { table.new ≡ (chain track table.old (parts cuts.now samples.now)).table }
{
    let mut at = 0;
    // by index: `said` and `cuts` go together, and of what a `zip` with `iter_mut` writes a proof knows nothing
    for (i, &cut) in cuts.iter().enumerate() {
        let end = at + cut.min(samples.len() - at);
        let d = track.deliver(&samples[at..end], table);
        track = d.track;
        said[i] = d.answer;
        at = end;
    }
    track
}

// A whole run: a fresh start, then the parts of `samples` whose lengths are `cuts`, as many as `said` has places. Refused settings make no delivery. It says the answer of the start, with the
// track at the end.
pub fn run(
    k: TrackSettings,
    samples: &[i16],
    cuts: &[usize],
    table: &mut [i32],
    said: &mut [Result<usize, Refusal>],
) -> Answered
    ensures table_after { run_outcome result said.new table.new
        ≡ run_call k table.old (deliveries k cuts.now samples.now (length said.old)) said.old }
    ensures ends_on_paper { EndsOnPaper k table.old (deliveries k cuts.now samples.now (length said.old)) said.new result table.new }
    ensures answer_value { track_answer_numbers (told result.answer) ≡ answer_numbers (start_no k) (pos 0 ∷ []) }
{
    let started = Track::start(k);
    let Ok(_) = started.answer else {
        return started;
    };
    let n = said.len().min(cuts.len());
    let track = deliver_parts(started.track, samples, &cuts[..n], table, &mut said[..n]);
    Answered {
        answer: started.answer,
        track,
    }
}
