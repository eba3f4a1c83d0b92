// A frame's verdict with the settings under which it was found: the lags and the row that it stands for.
ghost use Rattle.std.specs.Prelude.{◌≡◌, ◌≤◌, length, take, true};
ghost use Rattle.lists.specs.Fill.{filled};
ghost use Rattle.pitch_settings.specs.Settings.{frame_length};
ghost use Rattle.silk_pitch_analysis.specs.Frame.{verdict_of, lag_of, row_from};
ghost use Rattle.silk_pitch_analysis.specs.Steps.{pair_carried_in};

use crate::{Previous, Verdict, analyse};
use pitch_settings::Analysed;
use pitch_table::{Pair, Row, UNVOICED, ZERO_DIVISOR};

// A verdict and its settings, at which the code carries a voiced verdict's pair.
#[derive(Clone, Copy)]
pub struct Analysis {
    pub settings: Analysed,
    pub verdict: Verdict,
    pub ghost carried: { pair_carried_in settings.settings verdict ≡ true },
}

// The pair of a voiced verdict is made in each of the two methods that need it: a method for it alone would have to ask for what the case has just told.
impl Analysis {
    // What the stages find in the first N samples.
    #[tactic(auto, using(crate::specs::FrameLaws::carried_test))]
    pub fn of(frame: &[i16], s: Analysed, prev: Previous) -> Analysis
        requires { frame_length s.settings ≤ length frame.now }
        ensures settings { result.settings ≡ s }
        ensures verdict { result.verdict ≡ verdict_of s.settings (take (frame_length s.settings) frame.now) prev.lag prev.correlation }
    {
        let verdict = analyse(frame, s, prev);
        Analysis {
            settings: s,
            verdict,
        }
    }

    // The lag of subframe k, or 0 where there is none.
    pub fn lag(self, k: usize) -> i32
        ensures { result ≡ lag_of self.settings.settings self.verdict k }
    {
        match self.verdict {
            Verdict::Voiced { index, contour, .. } => {
                let pair = Pair {
                    settings: self.settings.into(),
                    index,
                    contour,
                };
                pair.lag(k)
            }
            Verdict::Unvoiced | Verdict::ZeroDivisor => 0,
        }
    }

    // The row of the verdict.
    #[tactic(auto, unfolding(crate::specs::Frame::row_from))]
    pub fn row(self) -> Row
        ensures { result ≡ row_from self.settings.settings self.verdict }
    {
        match self.verdict {
            Verdict::Voiced {
                index,
                contour,
                correlation,
            } => {
                let pair = Pair {
                    settings: self.settings.into(),
                    index,
                    contour,
                };
                pair.row(correlation)
            }
            Verdict::Unvoiced => Row::unpitched(UNVOICED),
            Verdict::ZeroDivisor => Row::unpitched(ZERO_DIVISOR),
        }
    }

    // Writes the lags of the nb subframes.
    pub fn put_lags(self, out: &mut [i32])
        requires { self.settings.settings.nb ≤ length out.old }
        ensures { out.new ≡ filled (lag_of self.settings.settings self.verdict) self.settings.settings.nb out.old }
    {
        let places = &mut out[..self.settings.settings.nb];
        // k is the subframe
        for (k, lag) in places.iter_mut().enumerate() {
            *lag = self.lag(k);
        }
    }
}
