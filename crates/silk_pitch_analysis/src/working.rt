// The working frame, and the stages that search it in order.
ghost use Rattle.std.specs.Prelude.{◌≡◌, ◌+◌, ◌*◌, ◌<◌, ◌≤◌, length};
ghost use Rattle.pitch_settings.specs.Settings.{frame_length};
ghost use Rattle.silk_pitch_analysis.specs.Frame.{from_pair, last_stage, from_winner, from_screen, staged};
ghost use Rattle.silk_pitch_analysis.specs.Steps.{verdict_from, WinnerRange};
ghost use Rattle.stage1.specs.Stage1.{stage1};
ghost use Rattle.stage2.specs.Stage2.{stage2};
ghost use Rattle.stage2_correlations.specs.Marks.{Kept};
ghost use Rattle.stage3.specs.Pick.{Pair as FoundPair};

use crate::{Previous, Verdict};
use answers::NoPitch;
use frame_signals::{frame_4khz, frame_8khz};
use pitch_settings::Analysed;
use silk_resampler::source_filter;
use stage1::search_stage1;
use stage2::{Chosen, search_stage2};
use stage3::search_stage3;

// The samples of one whole frame, scaled as the stages want them, with its settings.
#[derive(Clone, Copy)]
pub struct WorkingFrame<'a> {
    pub samples: &'a [i16],
    pub settings: Analysed,
    pub ghost whole: { length samples.now ≡ frame_length settings.settings },
}

// A voiced verdict, from the last stage's lag and contour.
// The rate is a plain number with its bound: the lag's index is defined for each.
fn voiced(fs_khz: usize, lag: usize, contour: usize, correlation: i32) -> Verdict
    requires { (fs_khz ≤ 16) × ((lag ≤ 18 * fs_khz) × (contour < 34)) }
    ensures { result ≡ from_pair fs_khz correlation (FoundPair lag contour) }
{
    let index = lag as i32 - (2 * fs_khz) as i32;
    let contour = contour as i32;
    Verdict::Voiced {
        index,
        contour,
        correlation,
    }
}

impl<'a> WorkingFrame<'a> {
    // The verdict of stage 2's winner: at 8 kHz its own pair, else stage 3's.
    fn last_stage(self, winner: Chosen) -> Result<Verdict, NoPitch>
        requires { WinnerRange self.settings.settings winner.lag winner.contour }
        ensures { verdict_from result ≡ last_stage self.entry.settings.settings self.entry.samples.now winner.lag winner.contour winner.correlation }
    {
        let s = self.settings.settings;
        let fs_khz = s.rate;
        if fs_khz == 8 {
            return Ok(voiced(fs_khz, winner.lag, winner.contour, winner.correlation));
        }
        let scaled = winner.lag * fs_khz / 8;
        let found = search_stage3(self.samples, scaled, s).ok_or(NoPitch::ZeroDivisor)?;
        Ok(voiced(fs_khz, found.lag, found.contour, winner.correlation))
    }

    // Stage 2 on the 8 kHz signal, then the last stage.
    fn second_stage(self, e: &[i16], kept: &[usize], prev: Previous) -> Result<Verdict, NoPitch>
        requires eight { length e.now ≡ (20 + 5 * self.settings.settings.nb) * 8 }
        requires kept { Kept kept.now }
        ensures { verdict_from result ≡ from_winner self.entry.settings.settings self.entry.samples.now (stage2 e.now kept.now self.entry.settings.settings.rate self.entry.settings.settings.nb self.entry.settings.settings.complexity self.entry.settings.settings.thres2 prev.lag prev.correlation) }
    {
        let winner = search_stage2(e, kept, self.settings.settings, prev)?;
        self.last_stage(winner)
    }

    // The stages in order, on the working frame and its forms at 8 and 4 kHz: a voiced verdict, or why there is no pitch.
    fn stages(self, e: &[i16], f: &[i16], prev: Previous) -> Result<Verdict, NoPitch>
        requires eight { length e.now ≡ (20 + 5 * self.settings.settings.nb) * 8 }
        requires four { length f.now ≡ (20 + 5 * self.settings.settings.nb) * 4 }
        ensures { verdict_from result ≡ from_screen self.entry.settings.settings self.entry.samples.now e.now f.now prev.lag prev.correlation (stage1 f.now self.entry.settings.settings.nb self.entry.settings.settings.complexity self.entry.settings.settings.thres1).screen }
    {
        let kept = search_stage1(f, self.settings.settings)?;
        self.second_stage(e, kept.as_slice(), prev)
    }

    // The working frame through all stages.
    pub fn verdict(self, prev: Previous) -> Verdict
        ensures { result ≡ staged self.entry.settings.settings self.entry.samples.now prev.lag prev.correlation }
    {
        let mut buf_8khz = [0i16; 320];
        let mut buf_4khz = [0i16; 160];
        let fs_khz = self.settings.settings.rate;
        let nb = self.settings.settings.nb;
        let n8 = (20 + 5 * nb) * 8;
        let n4 = (20 + 5 * nb) * 4;
        frame_8khz(self.samples, &mut buf_8khz, fs_khz, source_filter());
        frame_4khz(&buf_8khz[..n8], &mut buf_4khz);
        self.stages(&buf_8khz[..n8], &buf_4khz[..n4], prev)
            .unwrap_or_else(Verdict::from)
    }
}
