// Sets of forecasts.
ghost use Rattle.std.specs.Prelude.{◌≡◌, ℕ, ◌<◌, ◌||◌, ◌==◌};
ghost use Rattle.std.specs.List.{list_any};
ghost use Rattle.translate.specs.States.{member, set_of};

use crate::state::Forecasts;
use bits::has_bit;

impl Forecasts {
    pub(crate) const NONE: Forecasts = Forecasts { words: [0; 4] };

    pub(crate) const ALL: Forecasts = Forecasts {
        words: [u64::MAX; 4],
    };

    pub(crate) fn contains(&self, forecast: u8) -> bool
        ensures { result ≡ member self.now forecast }
    {
        let place = usize::from(forecast);
        has_bit(self.words[place / 64], place % 64)
    }

    pub(crate) fn insert(&mut self, forecast: u8)
        ensures { self.new ≡ set_of (λ J. (forecast == J) || member self.old J) }
    {
        let place = usize::from(forecast);
        self.words[place / 64] |= 1 << (place % 64);
    }

    pub(crate) fn insert_all(&mut self, forecasts: &[u8])
        ensures { (J : ℕ) → J < 256 → member self.new J ≡ (member self.old J || list_any (λ K. K == J) forecasts.now) }
    {
        for forecast in forecasts {
            self.insert(*forecast);
        }
    }
}
