// The turns of the pairs, and how a state that is left moves them.
ghost use Rattle.std.specs.Prelude.{◌≡◌, slice_index};
ghost use Rattle.turning.specs.Turns.{next_turn, next_turns, is_last_met};

use acceptor::Acceptor;
use turning::MOST_PAIRS;

// A pair's turn; 0 past the last.
pub fn turn_of(turns: &[u8; MOST_PAIRS], pair: usize) -> u8
    ensures { result ≡ slice_index turns.now pair }
{
    turns.get(pair).copied().unwrap_or(0)
}

// A pair's turn after the state is left. A state says nothing without its acceptor, so both are given, as they are at an acceptor's own questions.
fn turn_after<A: Acceptor>(inner: &A, pair: usize, state: &A::State, turn: u8) -> u8
    ensures { result ≡ next_turn (A.Acceptor.judges inner.now) pair state.now turn }
{
    if !inner.visited(pair, usize::from(turn), state) {
        turn
    } else if usize::from(turn) + 1 < inner.visits(pair) {
        turn + 1
    } else {
        0
    }
}

// The turns after the state is left.
pub fn turns_after<A: Acceptor>(
    inner: &A,
    state: &A::State,
    turns: &[u8; MOST_PAIRS],
) -> [u8; MOST_PAIRS]
    ensures { result ≡ next_turns (A.Acceptor.judges inner.now) state.now turns.now (A.Acceptor.judges inner.now).count }
{
    let mut moved = *turns;
    let pairs = inner.pairs().min(moved.len());
    for (pair, turn) in moved[..pairs].iter_mut().enumerate() {
        *turn = turn_after(inner, pair, state, *turn);
    }
    moved
}

// Whether the last visit set of a pair is met in its turn.
pub fn is_last_met<A: Acceptor>(inner: &A, pair: usize, state: &A::State, turn: u8) -> bool
    ensures { result ≡ is_last_met (A.Acceptor.judges inner.now) pair state.now turn }
{
    let visits = inner.visits(pair);
    visits == 0 || usize::from(turn) == visits - 1 && inner.visited(pair, visits - 1, state)
}
