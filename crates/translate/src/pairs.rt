// The rule's automaton as an acceptor: its pairs.
ghost use Rattle.translate.specs.Meaning.{rule_judges};

use crate::held::RuleAcceptor;
use crate::obligation::{avoided, in_set};
use crate::state::State;
use acceptor::Acceptor;

impl Acceptor for RuleAcceptor {
    ghost judges = { rule_judges };

    fn pairs(&self) -> usize {
        self.pairs.len()
    }

    fn visits(&self, pair: usize) -> usize {
        match self.pairs.as_slice().get(pair) {
            Some(pair) => pair.visits.as_slice().len(),
            None => 0,
        }
    }

    // Not the start; an obligation that lacks the forecast, or a letter that breaks it.
    fn avoids(&self, pair: usize, state: &State) -> bool {
        match (self.pairs.as_slice().get(pair), *state) {
            (Some(pair), State::Obliged { forecasts, letter }) => avoided(pair, &forecasts, letter),
            _ => false,
        }
    }

    // Not the start; a letter of the set.
    fn visited(&self, pair: usize, set: usize, state: &State) -> bool {
        match (self.pairs.as_slice().get(pair), *state) {
            (Some(pair), State::Obliged { letter, .. }) => {
                in_set(pair.visits.as_slice(), set, letter)
            }
            _ => false,
        }
    }
}
