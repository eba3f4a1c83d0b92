// A lag index and a contour index, at settings that a sheet can hold; the lags and the row that they stand for.
ghost use Rattle.std.specs.Prelude.{◌≡◌, true, false, IfSome, IsSome, IsTrue, ◌↔◌};
ghost use Rattle.silk_tables.specs.Rebuild.{carried};
ghost use Rattle.pitch_table.specs.Row.{pair_lag, voiced_row};

use crate::Row;
use pitch_settings::Held;
use silk_tables::rebuild::{lag_of, pair_carried};

// A pair that the code carries at these settings.
#[derive(Clone, Copy)]
pub struct Pair {
    pub settings: Held,
    pub index: i32,
    pub contour: i32,
    pub ghost carried: { carried settings.settings.rate settings.settings.nb settings.settings.complexity index contour ≡ true },
}

impl Pair {
    // The pair, where the code carries it.
    pub fn of(settings: Held, index: i32, contour: i32) -> Option<Pair>
        ensures carried { IsSome result ↔ (carried settings.settings.rate settings.settings.nb settings.settings.complexity index contour ≡ true) }
        ensures settings { IfSome result (λ p. p.settings ≡ settings) }
        ensures index { IfSome result (λ p. p.index ≡ index) }
        ensures contour { IfSome result (λ p. p.contour ≡ contour) }
    {
        let s = settings.settings;
        if pair_carried(s.rate, s.nb, s.complexity, index, contour) {
            Some(Pair {
                settings,
                index,
                contour,
            })
        } else {
            None
        }
    }

    // The lag of subframe k that the pair stands for, or 0 where the frame has no subframe k.
    // 0 and no Option: it is what a row has there.
    pub fn lag(self, k: usize) -> i32
        ensures { result ≡ pair_lag self.settings.settings self.index self.contour k }
    {
        let s = self.settings.settings;
        if k < s.nb {
            lag_of(s.rate, s.nb, self.index, self.contour as usize, k)
        } else {
            0
        }
    }

    // The row of a voiced frame with this pair, from its correlation.
    #[tactic(auto, unfolding(crate::specs::Row::voiced_row))]
    pub fn row(self, correlation: i32) -> Row
        ensures { result ≡ voiced_row self.settings.settings self.index self.contour correlation }
    {
        Row {
            verdict: 0,
            index: self.index,
            contour: self.contour,
            correlation,
            lag0: self.lag(0),
            lag1: self.lag(1),
            lag2: self.lag(2),
            lag3: self.lag(3),
        }
    }
}
