// The trail: the states at the ends of the cycles, until one comes again.
ghost use Rattle.std.specs.Prelude.{◌≡◌, ℕ, ◌<◌, ◌≤◌, length, MatchOption, ◌≢◌, slice_index_or};
ghost use Rattle.acceptor.specs.Walks.{turned, Apart, Closes};

use crate::steps::after;
use crate::traits::Course;

// State number `passes` is state number `from` again.
#[derive(Clone, Copy, Debug, PartialEq, Eq)]
pub struct Closed {
    pub from: usize,
    pub passes: usize,
}

// The first place that has the state.
fn place_of<A: Course>(course: &A, state: A::State, trail: &[A::State]) -> Option<usize>
    ensures { MatchOption result
        ((i : ℕ) → i < length trail.now → slice_index_or trail.now i state ≢ state)
        (λ k. (k < length trail.now) × (slice_index_or trail.now k state ≡ state)
        × ((i : ℕ) → i < k → slice_index_or trail.now i state ≢ state)) }
{
    trail.iter().position(|kept| course.same(kept, &state))
}

// Walks cycle after cycle from the first state, and keeps the state at the start of each, until one is met again or the trail is full.
pub fn close<A: Course>(
    course: &A,
    first: A::State,
    cycle: &[u8],
    trail: &mut [A::State],
) -> Option<Closed>
    ensures { MatchOption result
        (Apart (turned (A.Course.moves course.now) first cycle.now) (length trail.old))
        (λ l. Closes (turned (A.Course.moves course.now) first cycle.now) trail.new first l.from l.passes) }
{
    let mut state = first;
    // Counted by hand, since each turn also reads the places before its own.
    for k in 0..trail.len() {
        trail[k] = state;
        state = after(course, state, cycle);
        if let Some(from) = place_of(course, state, &trail[..=k]) {
            return Some(Closed {
                from,
                passes: k + 1,
            });
        }
    }
    None
}
