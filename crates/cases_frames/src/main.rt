// Runs the frame call on a list of frames from standard input and prints, for each kind of frame, how many it answers as the source does.
// A record is the frame's kind, its rate, subframes and complexity (a byte each), the two thresholds, the previous lag and the previous correlation (4 bytes each), N samples
// (2 bytes each), then the source's row: verdict, lag index, contour, correlation and four lags (4 bytes each). All are little-endian.
#![tactic(auto)]

ghost use Rattle.std.specs.Prelude.{◌≤◌, ◌*◌, length};
ghost use Rattle.pitch_settings.specs.Settings.{longest_frame};
ghost use Rattle.std.proofs.Common.{rules};

use cases_io::{
    Records, byte_at, i32_at, kind_of, load, nth, read_full, replay_input, report, same,
};
use pitch_settings::{LONGEST_FRAME, Settings};
use rooms::room;
use silk_pitch_analysis::{Verdict, silk_pitch_analysis_core};
use std::io;
use std::io::Read;

// What the lag places hold before the call; no lag is negative.
const UNTOUCHED: i32 = -7;

// The bytes of a frame's samples at most, of a row, and of a row before its lags.
const SAMPLE_BYTES: usize = 2 * LONGEST_FRAME;

const ROW_BYTES: usize = 32;

const LAGS_AT: usize = 16;

// The numbers of a verdict are written out here alone: the call for C writes them to four places of its caller's.
fn verdict_agrees(row: &[u8], v: Verdict) -> bool {
    match v {
        Verdict::Voiced {
            index,
            contour,
            correlation,
        } => same(row, 0, &[0, index, contour, correlation]),
        Verdict::Unvoiced => same(row, 0, &[1, 0, 0, 0]),
        Verdict::ZeroDivisor => same(row, 0, &[2, 0, 0, 0]),
    }
}

// Whether the lag place of number k is as the row says: past the subframes the row has 0, and the place is untouched.
fn lag_agrees(row: &[u8], nb: usize, k: usize, lag: i32) -> bool {
    let expected = nth(row, LAGS_AT, k);
    if k < nb {
        return lag == expected;
    }
    expected == 0 && lag == UNTOUCHED
}

// Whether the call answers these samples as the row says.
// The previous lag and correlation are two numbers, as the call has them.
fn agrees(samples: &[u8], row: &[u8], s: Settings, prev_lag: i32, prev_corr: i32) -> bool
    requires { length samples.now ≤ 2 * longest_frame }
{
    let nb = s.nb;
    let mut frame = room::<i16, LONGEST_FRAME>(0);
    let mut lags = [UNTOUCHED; 4];
    load(samples, 0, &mut frame);
    let n = samples.len() / 2;
    let Ok(v) = silk_pitch_analysis_core(&frame[..n], &mut lags, s, prev_lag, prev_corr) else {
        return false;
    };
    verdict_agrees(row, v)
        && lags
            .iter()
            .enumerate()
            .all(|(k, lag)| lag_agrees(row, nb, k, *lag))
}

// The settings of a record's head.
fn settings_of(head: &[u8]) -> Settings {
    Settings {
        rate: byte_at(head, 1) as usize,
        nb: byte_at(head, 2) as usize,
        complexity: byte_at(head, 3) as usize,
        thres1: i32_at(head, 4),
        thres2: i32_at(head, 8),
    }
}

// The samples of a frame with these settings, or none where the call refuses them.
fn samples_of(s: Settings) -> usize
    ensures { result ≤ longest_frame }
{
    match s.analysed() {
        Ok(analysed) => analysed.frame_length(),
        Err(_) => 0,
    }
}

struct Frames;

impl Records<20, 30> for Frames {
    fn kind(head: &[u8; 20]) -> Option<usize> {
        kind_of(head, 30)
    }

    // A record that is cut short does not agree.
    fn agrees<R: Read>(input: &mut R, head: &[u8; 20]) -> io::Result<bool> {
        let s = settings_of(head);
        let n = 2 * samples_of(s);
        let mut samples = room::<u8, SAMPLE_BYTES>(0);
        let mut row = room::<u8, ROW_BYTES>(0);
        let got = read_full(input, &mut samples[..n])?;
        let whole = got == n && read_full(input, &mut row)? == ROW_BYTES;
        Ok(whole && agrees(&samples[..n], &row, s, i32_at(head, 12), i32_at(head, 16)))
    }

    ghost few = { Prim.search rules };
}

// What stands here is the program's own: its records, the bytes of a head, how many kinds there are and how many records are read at most.
fn main(rt: HostRuntime) -> io::Result<()> {
    let tallies = replay_input::<Frames, 20, 30, _>(&mut rt.stdin(), 100000)?;
    report(&mut rt.stdout(), &tallies)
}
