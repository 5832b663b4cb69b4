// What is asked of states.
ghost use Rattle.std.specs.Prelude.{◌≡◌, ◌%◌, not, ◌||◌, slice_index};
ghost use Rattle.ltl.specs.Words.{bit};
ghost use Rattle.translate.specs.States.{member};

use crate::state::Forecasts;
use bits::has_bit;
use outlook::Pair;

// Whether a pair avoids an obligation with its last letter: the forecast is lacking, or broken by the letter.
pub(crate) fn avoided(pair: &Pair, set: &Forecasts, letter: u8) -> bool
    ensures { result ≡ (not (member set.now pair.now.forecast) || bit (letter % 64) pair.now.breaking) }
{
    !set.contains(pair.forecast) || has_bit(pair.breaking, usize::from(letter % 64))
}

// Whether a letter is in one of some sets of letters; in none beyond them.
pub(crate) fn in_set(sets: &[u64], set: usize, letter: u8) -> bool
    ensures { result ≡ bit (letter % 64) (slice_index sets.now set) }
{
    let letters = sets.get(set).copied().unwrap_or(0);
    has_bit(letters, usize::from(letter % 64))
}
