// The stretch of states that comes again for ever, as pairs see it.
ghost use Rattle.std.specs.Prelude.{◌≡◌, ℕ, ◌<◌, ◌≤◌, true, false, ◌||◌, length, MatchOption, find, slice_index_or};
ghost use Rattle.std.specs.List.{range_with_len};
ghost use Rattle.acceptor.specs.Said.{machine};
ghost use Rattle.acceptor.specs.Walks.{cycle_meets, favours, Crossed, FirstBelow, NoneBelow};

use crate::traits::Acceptor;

// No pair has more visit sets.
const MOST_SETS: usize = 15;

// So many cycles from a state.
#[derive(Drop)]
pub struct Stretch<'a, A: Acceptor> {
    pub acceptor: &'a A,
    pub from: A::State,
    pub cycle: &'a [u8],
    pub cycles: usize,
}

impl<A: Acceptor> Stretch<'_, A> {
    // Marks the visit sets that a state is in.
    fn note(&self, pair: usize, state: &A::State, met: &mut [bool])
        ensures { (set : ℕ) → set < length met.old →
            slice_index_or met.new set false
            ≡ (slice_index_or met.old set false || (A.Acceptor.judges self.now.acceptor.now).visited pair set state.now) }
    {
        for (set, mark) in met.iter_mut().enumerate() {
            *mark = *mark || self.acceptor.visited(pair, set, state);
        }
    }

    // Crosses one cycle, noting what is visited. Nothing where a state on it is to be avoided.
    fn cross(&self, pair: usize, from: A::State, met: &mut [bool]) -> Option<A::State>
        ensures { let m = machine (A.Course.moves self.now.acceptor.now) (A.Acceptor.judges self.now.acceptor.now) in
            MatchOption result
            (cycle_meets m.course from self.now.cycle.now (m.pairs.avoids pair) ≡ true)
            (Crossed m pair from self.now.cycle.now (length self.now.cycle.now) met.old met.new) }
    {
        let mut state = from;
        for letter in self.cycle {
            if self.acceptor.avoids(pair, &state) {
                return None;
            }
            self.note(pair, &state, met);
            state = self.acceptor.next(&state, *letter);
        }
        Some(state)
    }

    // Whether the stretch is in favour of a pair.
    fn favours(&self, pair: usize) -> bool
        ensures { result ≡ favours (machine (A.Course.moves self.now.acceptor.now) (A.Acceptor.judges self.now.acceptor.now))
            self.now.from self.now.cycle.now self.now.cycles pair }
    {
        let mut marks = [false; MOST_SETS];
        let met = &mut marks[..self.acceptor.visits(pair)];
        let mut state = self.from;
        for _turn in 0..self.cycles {
            match self.cross(pair, state, met) {
                Some(end) => state = end,
                None => return false,
            }
        }
        met.iter().all(|mark| *mark)
    }

    // The first pair that the stretch is in favour of.
    pub fn first_favoured(&self) -> Option<usize>
        ensures { let m = machine (A.Course.moves self.now.acceptor.now) (A.Acceptor.judges self.now.acceptor.now) in
            result ≡ find (favours m self.now.from self.now.cycle.now self.now.cycles) (range_with_len 0 m.pairs.count) }
    {
        (0..self.acceptor.pairs()).find(|pair| self.favours(*pair))
    }
}
