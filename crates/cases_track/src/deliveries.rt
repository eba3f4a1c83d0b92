// A list of deliveries to one track and one table, and what is said of each. The body:
// whether the track is started (1) or its state handed in (0), and the number that starting says (a byte each);
// rate, nb, complexity (8 bytes each), thresholds (4 each), frames done and samples held (8 each), previous lag and correlation (4 each);
// the table's length, and how many of each list stand below: places, samples, deliveries, rows, places at the end (4 each); lag and correlation at the end (4 each);
// whether the second threshold is fixed (0) or found from the speech (1), its order, activity and tilt, the previous type, and the type at the end (4 each);
// the first of the state's places for samples, and the samples (2 each); the deliveries: length (4), number (1), frames done and samples held then (8 each);
// the finished rows (8 numbers of 4); the first of the places at the end (2 each).
ghost use Rattle.std.specs.Prelude.{◌≡◌, length};
ghost use Rattle.pitch_recording.specs.Recording.{recording_samples};

use cases_io::{
    byte_at, i32_at, load, nth, same, same_settings, settings_at, skip, u32_at, usize_at,
};
use pitch_recording::RECORDING_SAMPLES;
use pitch_settings::LONGEST_FRAME;
use pitch_table::{MOST_FRAMES, ROW_SIZE};
use pitch_track::Track;
use refusals::Refusal;
use rooms::room;
use track_paper::Prev;
use track_settings::{SecondThreshold, Speech, TrackSettings};
use zint::wrapping_sub_i32;

// What the places of a state hold that are not listed.
const UNLISTED: i16 = 21845;

// Where the lists begin, and where the last one ends.
#[derive(Drop)]
struct Lists {
    samples: usize,
    deliveries: usize,
    rows: usize,
    places: usize,
    end: usize,
}

fn lists_of(body: &[u8]) -> Lists {
    let samples = skip(body, 114, 2 * u32_at(body, 62));
    let deliveries = skip(body, samples, 2 * u32_at(body, 66));
    let rows = skip(body, deliveries, 21 * u32_at(body, 70));
    let places = skip(body, rows, 32 * u32_at(body, 74));
    let end = skip(body, places, 2 * u32_at(body, 78));
    Lists {
        samples,
        deliveries,
        rows,
        places,
        end,
    }
}

// The second threshold: the fixed one, or found from the speech.
// The kind is the list's number, read here and where the settings are compared.
fn second_of(body: &[u8]) -> SecondThreshold {
    if i32_at(body, 90) == 0 {
        return SecondThreshold::Fixed(i32_at(body, 30));
    }
    SecondThreshold::FromSpeech(Speech {
        order: i32_at(body, 94),
        activity: i32_at(body, 98),
        tilt: i32_at(body, 102),
    })
}

fn settings_of(body: &[u8]) -> TrackSettings {
    TrackSettings {
        thres2: second_of(body),
        ..TrackSettings::from(settings_at(body, 2))
    }
}

// The state that the body hands in.
fn handed_in(body: &[u8]) -> Track {
    let mut held = [UNLISTED; LONGEST_FRAME];
    let n = u32_at(body, 62).min(LONGEST_FRAME);
    load(body, 114, &mut held[..n]);
    let settings = settings_of(body);
    let prev = Prev {
        lag: i32_at(body, 50),
        correlation: i32_at(body, 54),
        signal: i32_at(body, 106),
    };
    Track {
        settings,
        frames: usize_at(body, 34),
        held,
        count: usize_at(body, 42),
        prev,
    }
}

fn first_track(body: &[u8]) -> Track {
    if byte_at(body, 0) == 0 {
        return handed_in(body);
    }
    Track::start(settings_of(body)).track
}

// Whether an answer has the number told, and the frames where it is no refusal.
// A number, as the list has it; 0 is no refusal.
fn answer_agrees(answer: Result<usize, Refusal>, number: usize, frames: usize) -> bool {
    match answer {
        Ok(done) => number == 0 && done == frames,
        Err(refusal) => refusal.number() == number,
    }
}

fn start_agrees(body: &[u8]) -> bool {
    let number = byte_at(body, 1) as usize;
    if byte_at(body, 0) == 0 {
        return number == 0;
    }
    let started = Track::start(settings_of(body));
    answer_agrees(started.answer, number, 0)
}

// Whether a delivery is answered as told at `at`, and leaves the frames done and the samples held that are told.
fn delivery_agrees(body: &[u8], at: usize, answer: Result<usize, Refusal>, after: &Track) -> bool {
    let number = byte_at(body, skip(body, at, 4)) as usize;
    after.frames == usize_at(body, skip(body, at, 5))
        && after.count == usize_at(body, skip(body, at, 13))
        && answer_agrees(answer, number, after.frames)
}

// Delivers the samples part by part. The state that they leave, or none where an answer is another than the one told.
fn deliver_all(body: &[u8], from: usize, samples: &[i16], table: &mut [i32]) -> Option<Track> {
    let mut track = first_track(body);
    let mut at = 0;
    // by number and not by chunks: as many as the body claims, and what it has too few of reads as 0
    for i in 0..u32_at(body, 70) {
        let told = skip(body, from, 21 * i);
        let end = at + u32_at(body, told).min(samples.len() - at);
        let part = &samples[at..end];
        let delivered = track.deliver(part, table);
        track = delivered.track;
        if !delivery_agrees(body, told, delivered.answer, &track) {
            return None;
        }
        at = end;
    }
    Some(track)
}

// Whether the places for samples are as told from `at` on, as many as are listed.
fn places_agree(body: &[u8], at: usize, t: Track) -> bool {
    let held = t.held;
    let n = u32_at(body, 78).min(LONGEST_FRAME);
    same(body, at, &held[..n])
}

// Whether the settings are as told; where the threshold is found from the speech, 0 is told for the stored one.
fn settings_agree(body: &[u8], k: TrackSettings) -> bool {
    matches!(i32_at(body, 90), 0 | 1)
        && k.thres2 == second_of(body)
        && same_settings(k.stored(), settings_at(body, 2))
}

// Whether the state at the end is as told, its places from `at` on.
fn end_agrees(body: &[u8], at: usize, t: Track) -> bool {
    let prev = Prev {
        lag: i32_at(body, 82),
        correlation: i32_at(body, 86),
        signal: i32_at(body, 110),
    };
    t.prev == prev && settings_agree(body, t.settings) && places_agree(body, at, t)
}

// What number i of the table is before any row is written: no row has such a number, and no two are alike.
fn blank(i: usize) -> i32 {
    wrapping_sub_i32(-1000000, (i % 32800) as i32)
}

// A table of 4,096 rows and a few numbers more.
fn blank_table() -> [i32; 32800]
    ensures { 32800 ≡ length result }
{
    let mut table = [0; 32800];
    for (i, number) in table.iter_mut().enumerate() {
        *number = blank(i);
    }
    table
}

// Number i of the table at the end: that of a finished row, where it is from `first` to `end`, or as it was. The two ends are places and no switch; a range's `contains` says no more.
fn number_told(body: &[u8], rows: usize, first: usize, end: usize, i: usize) -> i32 {
    if i < first || i >= end {
        return blank(i);
    }
    nth(body, rows, i - first)
}

fn table_agrees(body: &[u8], rows: usize, table: &[i32]) -> bool {
    let first = ROW_SIZE * usize_at(body, 34).min(MOST_FRAMES);
    let end = first + ROW_SIZE * u32_at(body, 74);
    table.iter().enumerate().all(|(i, number)| *number == number_told(body, rows, first, end, i))
}

// The samples that are delivered: those listed from `at` on, and then zeros.
fn samples_of(body: &[u8], at: usize) -> [i16; RECORDING_SAMPLES]
    ensures { recording_samples ≡ length result }
{
    let mut samples = room::<i16, RECORDING_SAMPLES>(0);
    let n = u32_at(body, 66).min(RECORDING_SAMPLES);
    load(body, at, &mut samples[..n]);
    samples
}

// Whether the deliveries are answered, and leave state and table, as the body tells. Its size stands beside the slice, which is the whole buffer: a body can claim longer lists than it has, and
// what it has too few of reads as 0.
pub fn agrees(body: &[u8], size: usize) -> bool {
    let numbers = u32_at(body, 58).min(32800);
    let p = lists_of(body);
    let samples = samples_of(body, p.samples);
    let mut table = blank_table();
    let Some(track) = deliver_all(body, p.deliveries, &samples, &mut table[..numbers]) else {
        return false;
    };
    p.end == size
        && start_agrees(body)
        && end_agrees(body, p.places, track)
        && table_agrees(body, p.rows, &table)
}
