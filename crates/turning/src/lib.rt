// The turned machine, whose pairs have one visit set each, and the law that it accepts what the machine accepts.
#![tactic(auto)]

ghost use Rattle.turning.specs.Laws.{KeepsAcceptance, KeepsFirstPair, KeepsLimits, KeepsVerdict, PlainPairs};

// The most pairs that a machine may have to be turned.
pub const MOST_PAIRS: usize = 16;

// A state of a machine, and for each pair its turn: the visit set that it waits for.
#[derive(Clone, Copy, Debug, PartialEq, Eq)]
pub struct TurnedState<S> {
    pub inner: S,
    pub turns: [u8; MOST_PAIRS],
}

// The turned machine's pairs have one visit set each; it accepts, and is judged, as the machine is, and keeps the limits that the machine keeps.
pub fn turning_stands<S>()
    ensures plain { PlainPairs S }
    ensures accepts { KeepsAcceptance S }
    ensures first { KeepsFirstPair S }
    ensures verdict { KeepsVerdict S }
    ensures limits { KeepsLimits S }
{}
