// Settings with which frames are analysed, and the sizes of their frames.
ghost use Rattle.std.specs.Prelude.{◌≡◌};
ghost use Rattle.pitch_settings.specs.Settings.{settings_no, frame_length, hop_length};

use crate::Settings;

// Settings that are not refused, so that a function which takes them need not test them again: `Settings::analysed` makes them.
#[derive(Clone, Copy)]
pub struct Analysed {
    pub settings: Settings,
    pub ghost analysed: { settings_no settings ≡ 0 },
}

impl Analysed {
    // N, the samples of a frame.
    pub fn frame_length(self) -> usize
        ensures { result ≡ frame_length self.settings }
    {
        let s = self.settings;
        (20 + 5 * s.nb) * s.rate
    }

    // The samples by which a track advances from frame to frame.
    pub fn hop_length(self) -> usize
        ensures { result ≡ hop_length self.settings }
    {
        let s = self.settings;
        5 * s.nb * s.rate
    }
}
