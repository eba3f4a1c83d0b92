// The program `track_options`: prints the rows of the track of a recording on standard input whose head names options, or the refusal (docs/FORMAT.md).
#![tactic(auto)]

use recording_head::Head;
use recording_program::run_program;
use track_printer::TrackText;

// The streams are handed over in each main: what those of a process hold no contract can say, so a function that took them itself would promise nothing.
fn main(rt: HostRuntime) {
    let _ = run_program::<TrackText, _, _, _, _>(
        &mut rt.stdin(),
        &mut rt.stdout(),
        &mut rt.stderr(),
        b"track_options",
        Head::Options,
    );
}
