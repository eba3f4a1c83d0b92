// What the program `frames` prints for a record: its bytes are taken apart, its frame is analysed, and its row is written as a line.
#![tactic(auto)]

ghost use Rattle.std.specs.Prelude.{◌≡◌, ◌≤◌, length, IfOk};
ghost use Rattle.pitch_input.specs.Input.{input_settings};
ghost use Rattle.pitch_settings.specs.Settings.{longest_frame};
ghost use Rattle.pitch_text.specs.Text.{row_text_bytes};
ghost use Rattle.refusals.specs.Refusals.{number_told};
ghost use Rattle.frames_text.specs.Frames.{record_head, longest_record, record_size, record_length, record_no, record_row, frame_samples_after, frame_printed, frame_text_call};

use pitch_input::{HEAD_SIZE, load_samples, settings_in};
use pitch_settings::{Analysed, LONGEST_FRAME};
use pitch_table::Row;
use pitch_text::{put_refusal, put_row_text};
use refusals::Refusal;
use sheet_bytes::i32_at;
use silk_pitch_analysis::{Previous, analysed_row};

// Where the previous lag and the previous correlation stand: after the settings.
const LAG_AT: usize = HEAD_SIZE;

const CORRELATION_AT: usize = LAG_AT + 4;

// The bytes before a record's samples: settings, previous lag and previous correlation.
pub const RECORD_HEAD: usize = CORRELATION_AT + 4;

// The bytes of the longest record.
pub const LONGEST_RECORD: usize = RECORD_HEAD + 2 * LONGEST_FRAME;

// How long a text is, and what it says of its record: nothing but its row, or a refusal.
// A length: the text stands in the caller's bytes, since nothing allocates.
#[derive(Clone, Copy)]
pub struct Line {
    pub len: usize,
    pub answer: Result<(), Refusal>,
}

// The bytes of a record with these settings.
fn record_size(s: Analysed) -> usize
    ensures { (result ≡ record_size s.settings) × (record_head ≤ result) × (result ≤ longest_record) }
{
    RECORD_HEAD + 2 * s.frame_length()
}

// How many bytes the record has that begins with `head`, the bytes before its samples or what there is of them.
pub fn record_length(head: &[u8]) -> usize
    requires { length head.now ≤ record_head }
    ensures { (result ≡ record_length head.now) × (length head.now ≤ result) × (result ≤ longest_record) }
{
    let len = head.len();
    if len < RECORD_HEAD {
        return len;
    }
    match settings_in(head).analysed() {
        Ok(s) => record_size(s),
        Err(_) => len,
    }
}

// The settings of a record, or its refusal.
fn check(bytes: &[u8]) -> Result<Analysed, Refusal>
    ensures number { number_told result ≡ record_no bytes.now }
    ensures settings { IfOk result (λ s. s.settings ≡ input_settings bytes.now) }
{
    let len = bytes.len();
    if len < RECORD_HEAD {
        return Err(Refusal::HalfInput);
    }
    let s = settings_in(bytes).analysed()?;
    if len < record_size(s) {
        return Err(Refusal::HalfInput);
    }
    Ok(s)
}

// The subframe count and the row of a record, or its refusal. The record's samples are left in the first places of `samples`, by a refusal nothing.
// The room is a slice of at least so many places, here and below: an array would ask more of callers.
fn record_row(bytes: &[u8], samples: &mut [i16]) -> Result<(usize, Row), Refusal>
    requires { longest_frame ≤ length samples.old }
    ensures number { number_told result ≡ record_no bytes.now }
    ensures row { IfOk result (λ r. (r.0 ≡ (input_settings bytes.now).nb) × (r.1 ≡ record_row bytes.now)) }
    ensures samples { samples.new ≡ frame_samples_after bytes.now samples.old }
{
    let s = check(bytes)?;
    let n = s.frame_length();
    load_samples(bytes, RECORD_HEAD, &mut samples[..n]);
    let lag = i32_at(bytes, LAG_AT);
    let correlation = i32_at(bytes, CORRELATION_AT);
    let prev = Previous { lag, correlation };
    Ok((s.settings.nb, analysed_row(s, &samples[..n], prev)))
}

// The record's line or its refusal, in the first bytes of `out`. The record's samples are left in the first places of `samples`, by a refusal nothing; all else stays.
pub fn frame_text(bytes: &[u8], samples: &mut [i16], out: &mut [u8]) -> Line
    requires { (longest_frame ≤ length samples.old) × (row_text_bytes ≤ length out.old) }
    ensures samples_after { frame_printed result out.new samples.new ≡ frame_text_call bytes.now out.old samples.old }
    ensures len_le_row_text_bytes { result.len ≤ row_text_bytes }
{
    match record_row(bytes, samples) {
        Ok((nb, row)) => {
            let len = put_row_text(out, 0, nb, row);
            Line {
                len,
                answer: Ok(()),
            }
        }
        Err(refusal) => {
            let len = put_refusal(out, 0, refusal);
            Line {
                len,
                answer: Err(refusal),
            }
        }
    }
}
