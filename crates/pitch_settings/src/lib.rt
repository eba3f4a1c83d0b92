// The settings of a frame, a track or a sheet: which are analysed, which a sheet can hold (refusals 1 to 3), and the sizes that they give.
#![tactic(auto)]

ghost use Rattle.std.specs.Prelude.{◌≡◌, IfOk};
ghost use Rattle.refusals.specs.Refusals.{number_told};
ghost use Rattle.pitch_settings.specs.Settings.{rate_known, subframes_known, settings_refusal, settings_no, held_no};

mod analysed;
mod held;

pub use analysed::Analysed;
pub use held::Held;
use refusals::Refusal;

// The five settings with which a frame is analysed.
#[derive(Clone, Copy, PartialEq, Eq)]
pub struct Settings {
    // samples per millisecond (kHz): 8, 12 or 16
    pub rate: usize,
    // subframes of 5 ms in a frame: 2 or 4
    pub nb: usize,
    // how many contours are tried: 0 to 2
    pub complexity: usize,
    // the threshold of stage 1, a share of the greatest correlation, Q16
    pub thres1: i32,
    // the threshold of stage 2, Q13
    pub thres2: i32,
}

// The samples of the longest frame: 16 kHz, four subframes.
pub const LONGEST_FRAME: usize = 640;

// Whether frames at this rate (kHz) are known.
#[tactic(auto, unfolding(crate::specs::Settings::rate_known))]
pub fn rate_known(rate: usize) -> bool
    ensures { result ≡ rate_known rate }
{
    matches!(rate, 8 | 12 | 16)
}

// Whether frames of this many subframes are known.
#[tactic(auto, unfolding(crate::specs::Settings::subframes_known))]
pub fn subframes_known(nb: usize) -> bool
    ensures { result ≡ subframes_known nb }
{
    matches!(nb, 2 | 4)
}

// The first refusal that applies, given whether the complexity is known.
// A flag, since the two kinds of settings say for themselves which complexities they know; it is judged last.
fn check(rate: usize, nb: usize, known: bool) -> Result<(), Refusal>
    ensures { number_told result ≡ settings_refusal rate nb known }
{
    if !rate_known(rate) {
        return Err(Refusal::Rate);
    }
    if !subframes_known(nb) {
        return Err(Refusal::Subframes);
    }
    if !known {
        return Err(Refusal::Complexity);
    }
    Ok(())
}

impl Settings {
    // The settings as ones with which frames are analysed, or the refusal.
    #[tactic(auto, unfolding(crate::specs::Settings::settings_no))]
    pub fn analysed(self) -> Result<Analysed, Refusal>
        ensures number { number_told result ≡ settings_no self }
        ensures settings { IfOk result (λ s. s.settings ≡ self) }
    {
        let analysed = self.complexity <= 2;
        check(self.rate, self.nb, analysed)?;
        Ok(Analysed { settings: self })
    }

    // The settings as ones that a sheet can hold, or the refusal.
    // Beside `analysed` and not one generic method: the two are defined apart and agree in the test only as long as their definitions do.
    #[tactic(auto, unfolding(crate::specs::Settings::held_no))]
    pub fn held(self) -> Result<Held, Refusal>
        ensures number { number_told result ≡ held_no self }
        ensures settings { IfOk result (λ s. s.settings ≡ self) }
    {
        let held = self.complexity <= 2;
        check(self.rate, self.nb, held)?;
        Ok(Held { settings: self })
    }
}
