// The second threshold from the speech itself, as the source's encoder finds it before it analyses a frame (silk_find_pitch_lags_fix of pitch_analysis.rs, five lines of it).
#![tactic(auto)]

ghost use Rattle.std.specs.Prelude.{◌≡◌, [], ◌∷◌};
ghost use Rattle.answers.specs.Answer.{answer_numbers};
ghost use Rattle.refusals.specs.Refusals.{told, number_told};
ghost use Rattle.speech_threshold.specs.Threshold.{within, in_range, threshold_no, threshold_value, threshold_call, threshold_answer_numbers};

use refusals::Refusal;
use silk_macros::{silk_rshift, silk_sat16, silk_smlabb, silk_smlawb};

// What a threshold is found from, beside the type of the signal before it.
#[derive(Clone, Copy, PartialEq, Eq)]
pub struct Speech {
    // the order of the whitening filter: 0 to 16
    pub order: i32,
    // the speech activity, Q8: 0 to 255
    pub activity: i32,
    // the tilt of the spectrum, Q15: 16 bits with their sign
    pub tilt: i32,
}

// Whether z is from low to high.
fn within(low: i32, high: i32, z: i32) -> bool
    ensures { result ≡ within low high z }
{
    (low..=high).contains(&z)
}

impl Speech {
    // Whether each of the four numbers is in its range. The type is any number, since it is judged here.
    #[tactic(auto, unfolding(crate::specs::Threshold::in_range))]
    fn in_range(self, signal_type: i32) -> bool
        ensures { result ≡ in_range self.order self.activity signal_type self.tilt }
    {
        within(0, 16, self.order)
            && within(0, 255, self.activity)
            && within(0, 2, signal_type)
            && within(-32768, 32767, self.tilt)
    }

    // Refusal 11 where one of the four numbers leaves its range: the filter's order 0 to 16, the activity 0 to 255, the type of the previous signal 0 to 2, the tilt 16 bits with their sign.
    // The type is any number, since it is judged here.
    #[tactic(auto, unfolding(crate::specs::Threshold::threshold_no))]
    pub fn check(self, signal_type: i32) -> Result<(), Refusal>
        ensures { number_told result ≡ threshold_no self.order self.activity signal_type self.tilt }
    {
        if self.in_range(signal_type) {
            Ok(())
        } else {
            Err(Refusal::ThresholdRange)
        }
    }

    // The source's steps, for any four numbers: a type that is one of three cases would ask more of callers.
    #[tactic(auto, unfolding(crate::specs::Threshold::threshold_value, crate::specs::Threshold::less_tilt, crate::specs::Threshold::less_type, crate::specs::Threshold::less_activity, crate::specs::Threshold::less_order))]
    pub fn threshold_value(self, signal_type: i32) -> i32
        ensures { result ≡ threshold_value self.order self.activity signal_type self.tilt }
    {
        let less_order = silk_smlabb(4915, -33, self.order);
        let less_activity = silk_smlawb(less_order, -209715, self.activity);
        let less_type = silk_smlabb(less_activity, -1229, silk_rshift(signal_type, 1));
        silk_sat16(silk_smlawb(less_type, -1638, self.tilt))
    }

    // The threshold of stage 2 (Q13) for a frame, from the order of the whitening filter (0 to 16), the speech activity (Q8, 0 to 255), the tilt of the spectrum (Q15, 16 bits with their sign)
    // and the type of the previous signal (0 none, 1 unvoiced, 2 voiced); or refusal 11 where one of them leaves its range. Handed to the frame call as thres2, it is the encoder's.
    // The type is any number, since it is judged here.
    #[tactic(auto, unfolding(crate::specs::Threshold::threshold_call))]
    pub fn threshold(self, signal_type: i32) -> Result<i32, Refusal>
        ensures answer { told result ≡ threshold_call self.order self.activity signal_type self.tilt }
        ensures numbers { threshold_answer_numbers (told result) ≡ answer_numbers (threshold_no self.order self.activity signal_type self.tilt) (threshold_value self.order self.activity signal_type self.tilt ∷ []) }
    {
        self.check(signal_type)?;
        Ok(self.threshold_value(signal_type))
    }
}
