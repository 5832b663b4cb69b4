// The rule's automaton as a course: from an obligation to the next, by look-ups.
ghost use Rattle.std.specs.Prelude.{◌≡◌, ℕ, ◌+◌, ◌-◌, ◌^◌, ◌<◌, ◌≤◌, true, false, ◌&&◌, length, nat_lt};
ghost use Rattle.ltl.specs.Arena.{temporals};
ghost use Rattle.rule.specs.Rules.{names_in, nodes_in};
ghost use Rattle.forecast.specs.Forecasts.{holds_at, possible, recast};
ghost use Rattle.translate.specs.States.{member, set_of};
ghost use Rattle.translate.specs.Meaning.{rule_moves};
ghost use Rattle.translate.specs.Sifted.{Part};

use crate::held::RuleAcceptor;
use crate::state::{Forecasts, State};
use acceptor::Course;
use bits::{has_bit, with_bit};

// The forecasts from `base` on that are in the bits of a word and pass a test, at most 64 of them and all below a count, as the bits of a word.
fn word_passing<F: Fn(u8) -> bool>(base: u8, count: usize, among: u64, test: &F) -> u64
    requires base { base ≤ 192 }
    requires few { count ≤ 256 }
    requires can { (J : ℕ) → J < count → F.pre test.now J }
    ensures { Part (λ J passes. F.post test.now J passes) count among base result }
{
    let width = count.saturating_sub(usize::from(base)).min(64) as u8; // at most 64
    let mut word = 0;
    for j in 0..width {
        let k = usize::from(j);
        if has_bit(among, k) {
            word = with_bit(word, k, test(base + j));
        }
    }
    word
}

impl Forecasts {
    // The forecasts of a set, all below a count, that pass a test: a word at a time, and what the set lacks is not looked at.
    fn passing<F: Fn(u8) -> bool>(count: usize, among: &Forecasts, test: F) -> Forecasts
        requires few { count ≤ 256 }
        requires can { (J : ℕ) → J < count → F.pre test J }
        ensures answers { (J : ℕ) → J < count → member among.now J ≡ true → F.post test J (member result J) }
        ensures others { (J : ℕ) → J < count → member among.now J ≡ false → member result J ≡ false }
        ensures only { result ≡ set_of (λ J. nat_lt J count && member result J) }
    {
        let [first, second, third, fourth] = among.words;
        Forecasts {
            words: [
                word_passing(0, count, first, &test),
                word_passing(64, count, second, &test),
                word_passing(128, count, third, &test),
                word_passing(192, count, fourth, &test),
            ],
        }
    }
}

impl RuleAcceptor {
    // The forecasts under which the rule holds at a letter.
    fn opening(&self, a: usize) -> Forecasts
        ensures { a < 64 → result ≡ set_of (λ K. nat_lt K (2 ^ temporals (nodes_in self.now.rule)) && holds_at (nodes_in self.now.rule) a K (length (nodes_in self.now.rule) - 1)) }
    {
        let rows = self.rows.as_slice();
        Forecasts::passing(
            rows.len(),
            &Forecasts::ALL,
            |forecast| has_bit(rows[usize::from(forecast)].root, a),
        )
    }

    // The possible forecasts whose recast by a letter is in a set.
    fn carried(&self, set: &Forecasts, a: usize) -> Forecasts
        requires { a < 64 }
        ensures { a < 2 ^ length (names_in self.now.rule) → result ≡ set_of (λ J. possible (length (names_in self.now.rule)) (nodes_in self.now.rule) J && member set.now (recast (nodes_in self.now.rule) a J)) }
    {
        let rows = self.rows.as_slice();
        Forecasts::passing(
            rows.len(),
            &self.possible,
            |forecast| set.contains(rows[usize::from(forecast)].recasts[a]),
        )
    }
}

impl Course for RuleAcceptor {
    type State = State;

    ghost moves = { rule_moves };

    fn names(&self) -> usize {
        self.rule.name_count()
    }

    fn start(&self) -> State {
        State::Start // before any letter
    }

    fn next(&self, state: &State, letter: u8) -> State {
        let a = usize::from(letter) % self.rule.letter_count();
        let set = match *state {
            State::Start => self.opening(a),
            State::Obliged { forecasts, .. } => forecasts,
        };
        State::Obliged {
            forecasts: self.carried(&set, a),
            letter: a as u8, // one of at most 64
        }
    }

    fn same(&self, a: &State, b: &State) -> bool {
        a == b
    }
}
