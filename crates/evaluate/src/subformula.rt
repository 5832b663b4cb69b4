// One subformula, and its bits in the working row: a word for each letter, whose bit k says that subformula k holds there.
ghost use Rattle.std.specs.Prelude.{◌≡◌, ◌+◌, ◌^◌, ◌<◌, if◌then◌else◌};
ghost use Rattle.std.specs.List.{list_any, list_all};
ghost use Rattle.ltl.specs.Words.{bit};
ghost use Rattle.evaluate.specs.Marks.{value, Settled};

use bits::has_bit;
use ltl::Node;

#[derive(Drop)]
pub(crate) struct Subformula {
    pub(crate) node: Node,
    pub(crate) number: usize,
    ghost few: { number < 32 },
}

// Whether some word has the bit.
fn holds_somewhere(part: usize, words: &[u32]) -> bool
    ensures { result ≡ list_any (bit part) words.now }
{
    words.iter().any(|word| has_bit(*word, part))
}

// Whether every word has the bit.
fn holds_throughout(part: usize, words: &[u32]) -> bool
    ensures { result ≡ list_all (bit part) words.now }
{
    words.iter().all(|word| has_bit(*word, part))
}

impl Subformula {
    // Whether it holds at a position, from the letter and the word there; `next` says of an F or a G whether it holds at the next one.
    fn holds(&self, letter: u8, word: u32, next: bool) -> bool
        ensures { result ≡ value self.now.node letter word next }
    {
        match self.node {
            Node::True => true,
            Node::False => false,
            Node::Atom(name) => has_bit(letter, usize::from(name)),
            Node::NotAtom(name) => !has_bit(letter, usize::from(name)),
            Node::And(i, j) => has_bit(word, usize::from(i)) && has_bit(word, usize::from(j)),
            Node::Or(i, j) => has_bit(word, usize::from(i)) || has_bit(word, usize::from(j)),
            Node::Eventually(part) => has_bit(word, usize::from(part)) || next,
            Node::Always(part) => has_bit(word, usize::from(part)) && next,
        }
    }

    // Whether an F or a G holds in the cycle: there it is the same at all positions, so one look over the cycle's words tells. Of others nothing is asked.
    #[tactic(auto, using(crate::proofs::Placed::eventual_settled, crate::proofs::Placed::lasting_settled))]
    pub(crate) fn is_settled(&self, words: &[u32]) -> bool
        ensures { Settled self.now.node words.now result }
    {
        match self.node {
            Node::Eventually(part) => holds_somewhere(usize::from(part), words),
            Node::Always(part) => holds_throughout(usize::from(part), words),
            _ => false,
        }
    }

    // Puts the bit into the word of one letter, and says whether it is set.
    pub(crate) fn mark(&self, letter: u8, next: bool, word: &mut u32) -> bool
        ensures value { result ≡ value self.now.node letter word.old next }
        ensures put { word.old < 2 ^ self.now.number → word.new ≡ word.old + (if result then 2 ^ self.now.number else 0) }
    {
        let is_set = self.holds(letter, *word, next);
        // with no test of the number, unlike `with_bit`: this is done for every letter and subformula
        if is_set {
            *word |= 1 << self.number;
        }
        is_set
    }
}
