// Rounds: a lead-in once, then a cycle for ever.
#![tactic(auto)]

ghost use Rattle.std.specs.Prelude.{◌≡◌, ◌++◌, not};
ghost use Rattle.std.specs.List.{position_from};
ghost use Rattle.refusal.specs.Answers.{answer};
ghost use Rattle.round.specs.Letters.{within, sound};

use refusal::{Cause, Layer, Refusal};

// The most letters of a round, lead-in and cycle together.
pub const MOST_LETTERS: usize = 1024;

// What may be a round: a lead-in and a cycle of any letters.
#[derive(Clone, Copy, Debug)]
pub struct Round<'a> {
    pub lead: &'a [u8],
    pub cycle: &'a [u8],
}

// Whether a letter speaks of the first n names alone. A byte has no bit from 8 on, and cannot be shifted so far.
fn is_within(n: usize, letter: u8) -> bool
    ensures { result ≡ within n letter }
{
    if n >= 8 {
        return true;
    }
    letter >> n == 0
}

// The place of the first letter with a bit beyond the names, where there is one.
fn first_foreign(n: usize, letters: &[u8]) -> Option<usize>
    ensures { result ≡ position_from (λ l. not (within n l)) 0 letters.now }
{
    letters.iter().position(|letter| !is_within(n, *letter))
}

impl Round<'_> {
    // The same of the whole round. One after the other: a chain of both would ask at each letter in which of them it is.
    fn first_beyond(&self, n: usize) -> Option<usize>
        ensures { result ≡ position_from (λ l. not (within n l)) 0 (self.now.lead.now ++ self.now.cycle.now) }
    {
        if let Some(place) = first_foreign(n, self.lead) {
            return Some(place);
        }
        let place = first_foreign(n, self.cycle)?;
        Some(self.lead.len() + place)
    }

    // Whether it is a round over n names: at most 1,024 letters, a cycle of one or more, no bit beyond the names.
    pub fn check(&self, n: usize) -> Result<(), Refusal>
        ensures { answer (λ u. u) result ≡ sound n self.now.lead.now self.now.cycle.now }
    {
        if self.lead.len() + self.cycle.len() > MOST_LETTERS {
            return Err(Refusal::new(Cause::LongRound, Layer::Round, 0));
        }
        if self.cycle.is_empty() {
            return Err(Refusal::new(Cause::EmptyCycle, Layer::Round, 0));
        }
        match self.first_beyond(n) {
            Some(place) => Err(Refusal::new(Cause::ForeignBit, Layer::Round, place)),
            None => Ok(()),
        }
    }
}
