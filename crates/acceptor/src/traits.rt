// Courses and acceptors: deterministic machines, by what they answer.
ghost use Rattle.std.specs.Prelude.{◌≡◌, ◌%◌, ◌^◌, ◌≤◌, false, Decides};
ghost use Rattle.machine.specs.Machines.{Course as Moves, Pairs};

// A start and a next state for each state and letter. Every question answers by the meaning, whenever it is asked.
pub trait Course {
    type State: Copy;

    // what the implementation means
    ghost moves: { Self → Moves Self.State };

    // The number of names.
    fn names(&self) -> usize
        ensures value { result ≡ (moves self.now).names }
        ensures few { result ≤ 6 };

    fn start(&self) -> Self::State
        ensures { result ≡ (moves self.now).start };

    // A letter's bits from the number of names upward are ignored.
    fn next(&self, state: &Self::State, letter: u8) -> Self::State
        ensures value { result ≡ (moves self.now).next state.now letter }
        ensures low { result ≡ (moves self.now).next state.now (letter % 2 ^ (moves self.now).names) };

    // Whether two states are the same. The `==` of a type parameter could find unlike states equal.
    fn same(&self, a: &Self::State, b: &Self::State) -> bool
        ensures { Decides result (a.now ≡ b.now) };
}

// A course with pairs, each with an avoid set and visit sets, counted from 0. Beyond a count there is nothing.
pub trait Acceptor: Course {
    ghost judges: { Self → Pairs Self.State };

    fn pairs(&self) -> usize
        ensures value { result ≡ (judges self.now).count }
        ensures few { result ≤ 256 };

    // How many visit sets a pair has.
    fn visits(&self, pair: usize) -> usize
        ensures value { result ≡ (judges self.now).visits pair }
        ensures few { result ≤ 15 }
        ensures none { (judges self.now).count ≤ pair → result ≡ 0 };

    // Whether a state is in a pair's avoid set.
    fn avoids(&self, pair: usize, state: &Self::State) -> bool
        ensures value { result ≡ (judges self.now).avoids pair state.now }
        ensures none { (judges self.now).count ≤ pair → result ≡ false };

    // Whether a state is in one of a pair's visit sets.
    fn visited(&self, pair: usize, set: usize, state: &Self::State) -> bool
        ensures value { result ≡ (judges self.now).visited pair set state.now }
        ensures none { (judges self.now).visits pair ≤ set → result ≡ false };
}
