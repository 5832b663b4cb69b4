// Formulae of LTL(F,G), and the numbered formula that a rule is held as.
#![tactic(auto)]

ghost use Rattle.std.specs.Prelude.{◌≡◌};
ghost use Rattle.ltl.specs.Arena.{same_node, join_node, temporal};
ghost use Rattle.ltl.specs.Laws.{Numbering};
ghost use Rattle.ltl.specs.Rounds.{RoundsRepeat, Settling, Unrolling};

// One subformula, its parts named by smaller numbers, and not by boxes, since the library allocates nothing; an atom is a name's number.
#[derive(Clone, Copy, Debug, PartialEq, Eq)]
pub enum Node {
    True,
    False,
    Atom(u8),
    NotAtom(u8),
    And(u8, u8),
    Or(u8, u8),
    Eventually(u8),
    Always(u8),
}

// What joins two rules.
#[derive(Clone, Copy, Debug, PartialEq, Eq)]
pub enum Operator {
    And,
    Or,
}

impl Operator {
    // The node that joins two parts.
    pub fn join(self, first: u8, second: u8) -> Node
        ensures { result ≡ join_node self first second }
    {
        match self {
            Operator::And => Node::And(first, second),
            Operator::Or => Node::Or(first, second),
        }
    }
}

impl Node {
    // Whether the node is an `F` or a `G`.
    pub fn is_temporal(self) -> bool
        ensures { result ≡ temporal self }
    {
        matches!(self, Node::Eventually(_) | Node::Always(_))
    }

    // Whether two nodes are the same.
    pub fn is_same(self, other: Node) -> bool
        ensures { result ≡ same_node self other }
    {
        self == other
    }
}

// The numbering lists each subformula once, in the order in which its last byte is read, and ends in the formula.
pub fn numbering_stands()
    ensures { Numbering }
{}

// Truth on endless words: one position at a time, and settled on a word that repeats, as every round's word does.
pub fn truth_stands()
    ensures unrolls { Unrolling }
    ensures settles { Settling }
    ensures repeats { RoundsRepeat }
{}
