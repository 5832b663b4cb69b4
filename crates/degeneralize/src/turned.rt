// The turned acceptor, by what it answers.
ghost use Rattle.std.specs.Prelude.{◌≡◌};
ghost use Rattle.refusal.specs.Answers.{answer};
ghost use Rattle.turning.specs.Turns.{turned_course, turned_pairs};
ghost use Rattle.degeneralize.specs.Granted.{granted};

use crate::turns::{is_last_met, turn_of, turns_after};
use acceptor::{Acceptor, Course};
use refusal::{Cause, Layer, Refusal};
use turning::{MOST_PAIRS, TurnedState};

// An acceptor, with a turn for each pair in its states.
#[derive_where(Clone, Copy)]
pub struct Turned<'a, A> {
    inner: &'a A,
}

impl<'a, A: Acceptor> Turned<'a, A> {
    // Over an acceptor of at most 16 pairs.
    pub fn new(inner: &'a A) -> Result<Turned<'a, A>, Refusal>
        ensures { answer (λ t. t.inner.now) result ≡ granted (A.Acceptor.judges inner.now).count inner.now }
    {
        if inner.pairs() > MOST_PAIRS {
            return Err(Refusal::new(Cause::ManyPairs, Layer::Turn, 0));
        }
        Ok(Turned { inner })
    }
}

impl<'a, A: Acceptor> Course for Turned<'a, A> {
    type State = TurnedState<A::State>;

    ghost moves = { λ t. turned_course (A.Course.moves t.inner.now) (A.Acceptor.judges t.inner.now) };

    fn names(&self) -> usize {
        self.inner.names()
    }

    fn start(&self) -> TurnedState<A::State> {
        TurnedState {
            inner: self.inner.start(),
            turns: [0; MOST_PAIRS],
        }
    }

    fn next(&self, state: &TurnedState<A::State>, letter: u8) -> TurnedState<A::State> {
        let inner = self.inner.next(&state.inner, letter);
        let turns = turns_after(self.inner, &state.inner, &state.turns);
        TurnedState { inner, turns }
    }

    fn same(&self, a: &TurnedState<A::State>, b: &TurnedState<A::State>) -> bool {
        self.inner.same(&a.inner, &b.inner) && a.turns == b.turns
    }
}

impl<'a, A: Acceptor> Acceptor for Turned<'a, A> {
    ghost judges = { λ t. turned_pairs (A.Acceptor.judges t.inner.now) };

    fn pairs(&self) -> usize {
        self.inner.pairs()
    }

    fn visits(&self, pair: usize) -> usize {
        usize::from(pair < self.inner.pairs())
    }

    fn avoids(&self, pair: usize, state: &TurnedState<A::State>) -> bool {
        self.inner.avoids(pair, &state.inner)
    }

    fn visited(&self, pair: usize, set: usize, state: &TurnedState<A::State>) -> bool {
        let turn = turn_of(&state.turns, pair);
        pair < self.inner.pairs() && set == 0 && is_last_met(self.inner, pair, &state.inner, turn)
    }
}
