// Settings that a sheet can hold.
ghost use Rattle.std.specs.Prelude.{◌≡◌};
ghost use Rattle.pitch_settings.specs.Settings.{held_no};

use crate::{Analysed, Settings};

// Settings that are not refused to a sheet: `Settings::held` makes them, and all with which frames are analysed are such.
#[derive(Clone, Copy)]
pub struct Held {
    pub settings: Settings,
    pub ghost held: { held_no settings ≡ 0 },
}

impl From<Analysed> for Held {
    ghost from_gives = { λ a h. h.settings ≡ a.settings };

    #[tactic(auto, using(crate::specs::SettingsLaws::analysed_held))]
    fn from(analysed: Analysed) -> Held {
        Held {
            settings: analysed.settings,
        }
    }
}
