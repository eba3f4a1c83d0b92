// The program `sheet_write_options`: writes the sheet of the track of a recording on standard input whose head names options, or the refusal (docs/FORMAT.md).
#![tactic(auto)]

use recording_head::Head;
use recording_program::run_program;
use track_sheet_writer::TrackSheet;

// The streams are handed over in each main: what those of a process hold no contract can say, so a function that took them itself would promise nothing.
fn main(rt: HostRuntime) {
    let _ = run_program::<TrackSheet, _, _, _, _>(
        &mut rt.stdin(),
        &mut rt.stdout(),
        &mut rt.stderr(),
        b"sheet_write_options",
        Head::Options,
    );
}
