// The letters at which each subformula holds, under one forecast: a word for each subformula, a bit for each letter.
ghost use Rattle.std.specs.Prelude.{◌≡◌, ◌<◌, ◌≤◌, length, slice_index};
ghost use Rattle.ltl.specs.Words.{bit};
ghost use Rattle.rule.specs.Rules.{nodes_in};
ghost use Rattle.outlook.specs.Letters.{letters_where, all_letters_if, decided_by, held_by, Told};

use crate::deciding::Deciding;
use bits::has_bit;
use ltl::Node;
use rule::Rule;

// The letters that have each name.
const NAMED: [u64; 6] = [
    0xAAAA_AAAA_AAAA_AAAA,
    0xCCCC_CCCC_CCCC_CCCC,
    0xF0F0_F0F0_F0F0_F0F0,
    0xFF00_FF00_FF00_FF00,
    0xFFFF_0000_FFFF_0000,
    0xFFFF_FFFF_0000_0000,
];

fn name_letters(name: u8) -> u64
    ensures { result ≡ letters_where (bit name) }
{
    NAMED.get(usize::from(name)).copied().unwrap_or(0)
}

fn all_or_none(all: bool) -> u64
    ensures { result ≡ all_letters_if all }
{
    if all { u64::MAX } else { 0 }
}

// The letters of one of the nodes before.
pub(crate) fn part(words: &[u64; 32], k: u8) -> u64
    ensures { result ≡ slice_index words.now k }
{
    words.get(usize::from(k)).copied().unwrap_or(0)
}

impl Deciding {
    // The letters of a temporal node, of those that it has by the forecast alone and those that it has anew.
    fn choose(self, kept: u64, renewed: u64) -> u64
        ensures { result ≡ decided_by self kept renewed }
    {
        match self {
            Deciding::Kept => kept,
            Deciding::Renewed => renewed,
        }
    }

    // The letters of a node, from those of the nodes before it.
    fn held(self, words: &[u64; 32], node: Node, forecast: bool) -> u64
        ensures { result ≡ held_by self words.now node forecast }
    {
        let kept = all_or_none(forecast);
        match node {
            Node::True => u64::MAX,
            Node::False => 0,
            Node::Atom(name) => name_letters(name),
            Node::NotAtom(name) => !name_letters(name),
            Node::And(i, j) => part(words, i) & part(words, j),
            Node::Or(i, j) => part(words, i) | part(words, j),
            Node::Eventually(q) => self.choose(kept, part(words, q) | kept),
            Node::Always(q) => self.choose(kept, part(words, q) & kept),
        }
    }
}

// The letters of all nodes, in numbering order; the k-th temporal node has bit k of the forecast.
pub(crate) fn letters_under(rule: &Rule, forecast: u8, deciding: Deciding) -> [u64; 32]
    ensures { Told deciding (nodes_in rule.now) forecast (length (nodes_in rule.now)) result }
{
    let mut words = [0; 32];
    // Counted beside the nodes: each of them gets its letters, and only the temporal ones have a bit.
    let mut rank = 0;
    for (k, node) in rule.nodes().iter().enumerate() {
        words[k] = deciding.held(&words, *node, has_bit(forecast, rank));
        rank += usize::from(node.is_temporal());
    }
    words
}
