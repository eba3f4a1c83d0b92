// The settings of a track: a second threshold that is fixed, or found from the speech before each row.
#![tactic(auto)]

ghost use Rattle.std.specs.Prelude.{◌≡◌, IfOk};
ghost use Rattle.pitch_settings.specs.Settings.{settings_no};
ghost use Rattle.refusals.specs.Refusals.{number_told};
ghost use Rattle.track_settings.specs.TrackSettings.{with_threshold, row_threshold, stored_threshold, second_no, stored_settings, row_settings, track_settings_no, fixed_settings};

use pitch_settings::{Analysed, Settings};
use refusals::Refusal;
pub use speech_threshold::Speech;

// The second threshold of a track.
#[derive(Clone, Copy, PartialEq, Eq)]
pub enum SecondThreshold {
    // the same for every frame, Q13
    Fixed(i32),
    // found from the speech, frame by frame
    FromSpeech(Speech),
}

// The five settings with which a track is analysed.
// A struct beside `Settings` and no type parameter for the one field that differs: definitions and customers name the two, and the parameter would stand in every clause.
#[derive(Clone, Copy, PartialEq, Eq)]
pub struct TrackSettings {
    // samples per millisecond (kHz): 8, 12 or 16
    pub rate: usize,
    // subframes of 5 ms in a frame: 2 or 4
    pub nb: usize,
    // how many contours are tried: 0 to 2
    pub complexity: usize,
    // the threshold of stage 1, a share of the greatest correlation, Q16
    pub thres1: i32,
    // the threshold of stage 2
    pub thres2: SecondThreshold,
}

// Settings of a track that are not refused: `TrackSettings::analysed` makes them, and each frame's settings are then analysed too.
#[derive(Clone, Copy)]
pub struct AnalysedTrack {
    pub settings: TrackSettings,
    pub ghost analysed: { settings_no (stored_settings settings) ≡ 0 },
}

impl SecondThreshold {
    // The second threshold that a sheet stores.
    fn stored(self) -> i32
        ensures { result ≡ stored_threshold self }
    {
        match self {
            SecondThreshold::Fixed(thres2) => thres2,
            SecondThreshold::FromSpeech(_) => 0,
        }
    }

    // The second threshold of a row, by the type of the signal before it: any number, as a track's state can hold any.
    fn of_row(self, signal_type: i32) -> i32
        ensures { result ≡ row_threshold self signal_type }
    {
        match self {
            SecondThreshold::Fixed(thres2) => thres2,
            SecondThreshold::FromSpeech(speech) => speech.threshold_value(signal_type),
        }
    }

    // Refusal 11 where the threshold comes from the speech and one of its four numbers leaves its range. The type is any number, since it is judged here.
    fn check(self, signal_type: i32) -> Result<(), Refusal>
        ensures { number_told result ≡ second_no self signal_type }
    {
        match self {
            SecondThreshold::Fixed(_) => Ok(()),
            SecondThreshold::FromSpeech(speech) => speech.check(signal_type),
        }
    }
}

impl TrackSettings {
    // A frame's settings: the track's, with this second threshold.
    fn with_threshold(self, thres2: i32) -> Settings
        ensures { result ≡ with_threshold self thres2 }
    {
        Settings {
            rate: self.rate,
            nb: self.nb,
            complexity: self.complexity,
            thres1: self.thres1,
            thres2,
        }
    }

    // The settings that the sheet of a track stores: thres2 is the fixed one, or 0 where it was found from the speech.
    #[tactic(auto, unfolding(crate::specs::TrackSettings::stored_settings))]
    pub fn stored(self) -> Settings
        ensures { result ≡ stored_settings self }
    {
        self.with_threshold(self.thres2.stored())
    }

    // The settings with which a row's frame is analysed, by the type of the signal before it (0 none, 1 unvoiced, 2 voiced): any number, as a track's state can hold any.
    #[tactic(auto, unfolding(crate::specs::TrackSettings::row_settings))]
    pub fn of_row(self, signal_type: i32) -> Settings
        ensures { result ≡ row_settings self signal_type }
    {
        self.with_threshold(self.thres2.of_row(signal_type))
    }

    // The settings as ones with which a track is analysed, with this type of the signal before its next row; or the refusal: 1, 2, 3, then 11.
    // The type is any number, since it is judged here.
    #[tactic(auto, unfolding(crate::specs::TrackSettings::track_settings_no))]
    pub fn analysed(self, signal_type: i32) -> Result<AnalysedTrack, Refusal>
        ensures number { number_told result ≡ track_settings_no self signal_type }
        ensures settings { IfOk result (λ k. k.settings ≡ self) }
    {
        self.stored().analysed()?;
        self.thres2.check(signal_type)?;
        Ok(AnalysedTrack { settings: self })
    }
}

impl AnalysedTrack {
    // The settings that the track's sheet stores, which give the sizes of its frames.
    pub fn stored(self) -> Analysed
        ensures { result.settings ≡ stored_settings self.settings }
    {
        Analysed {
            settings: self.settings.stored(),
        }
    }

    // The settings of a row's frame, by the type of the signal before it: any number, as a track's state can hold any.
    #[tactic(auto, using(crate::specs::TrackSettingsLaws::row_no))]
    pub fn of_row(self, signal_type: i32) -> Analysed
        ensures { result.settings ≡ row_settings self.settings signal_type }
    {
        Analysed {
            settings: self.settings.of_row(signal_type),
        }
    }
}

// The settings of a track whose second threshold is the fixed one of these.
impl From<Settings> for TrackSettings {
    ghost from_gives = { λ s k. k ≡ fixed_settings s };

    fn from(s: Settings) -> TrackSettings {
        TrackSettings {
            rate: s.rate,
            nb: s.nb,
            complexity: s.complexity,
            thres1: s.thres1,
            thres2: SecondThreshold::Fixed(s.thres2),
        }
    }
}
