// A counter over one name, with pairs of single states.
ghost use Rattle.std.specs.Prelude.{◌≤◌, length};

use acceptor::{Acceptor, Course};

// A state to avoid, and the only states of its visit sets.
#[derive(Clone, Copy)]
pub struct Pair<'a> {
    pub avoid: Option<u8>,
    pub visits: &'a [u8],
    ghost few: { length visits.now ≤ 15 },
}

// Counts the letters that have the name, from 0 to the last state and then from `back` on.
#[derive(Clone, Copy)]
pub struct Counter<'a> {
    pub last: u8,
    pub back: u8,
    pub pairs: &'a [Pair<'a>],
    ghost few: { length pairs.now ≤ 256 },
}

impl Course for Counter<'_> {
    ghost use Rattle.judged.specs.Counters.{counting};

    type State = u8;

    ghost moves = { counting };

    fn names(&self) -> usize {
        1
    }

    fn start(&self) -> u8 {
        0
    }

    fn next(&self, state: &u8, letter: u8) -> u8 {
        if letter % 2 == 0 {
            *state
        } else if *state < self.last {
            *state + 1
        } else {
            self.back
        }
    }

    fn same(&self, a: &u8, b: &u8) -> bool {
        a == b
    }
}

impl Acceptor for Counter<'_> {
    ghost use Rattle.judged.specs.Counters.{pairing};

    ghost judges = { pairing };

    fn pairs(&self) -> usize {
        self.pairs.len()
    }

    fn visits(&self, pair: usize) -> usize {
        self.pairs.get(pair).map_or(0, |p| p.visits.len())
    }

    fn avoids(&self, pair: usize, state: &u8) -> bool {
        self.pairs.get(pair).and_then(|p| p.avoid) == Some(*state)
    }

    fn visited(&self, pair: usize, set: usize, state: &u8) -> bool {
        self.pairs
            .get(pair)
            .and_then(|p| p.visits.get(set))
            .copied()
            == Some(*state)
    }
}
