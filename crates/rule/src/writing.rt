// From a rule to its written form.
ghost use Rattle.std.specs.Prelude.{◌≡◌, ℕ, ◌+◌, ◌<◌, ◌≤◌, List, [], ◌∷◌, ◌++◌, length, Ok};
ghost use Rattle.refusal.specs.Answers.{answer};
ghost use Rattle.grammar.specs.Descent.{reading};
ghost use Rattle.grammar.specs.Laws.{Returns};
ghost use Rattle.rule.specs.Rules.{nodes_in, names_in};
ghost use Rattle.rule.specs.Written.{Wrote, part_in, writing, written_into};

use crate::held::Rule;
use ltl::Node;
use refusal::{Cause, Layer, Refusal};

// Writes a word at a place, and gives the place behind it. The place is handed on from call to call: an output with its place inside would have
// to be taken apart in every clause.
fn put(out: &mut [u8], at: usize, word: &[u8]) -> usize
    requires { at + length word.now ≤ length out.old }
    ensures { Wrote at word.now out.old result out.new }
{
    let end = at + word.len();
    out[at..end].copy_from_slice(word);
    end
}

impl Rule {
    // How many bytes subformula k has when it is written.
    #[tactic(auto, using(crate::proofs::Parts::part_at))]
    fn width(&self, k: u8) -> usize
        requires { (k < length (nodes_in self.now)) × (length (part_in self.now k) ≤ 1024) }
        ensures { result ≡ length (part_in self.now k) }
    {
        match self.node(usize::from(k)) {
            Node::True | Node::False => 2,
            Node::Atom(a) => self.names.get(usize::from(a)).len(),
            Node::NotAtom(a) => 1 + self.names.get(usize::from(a)).len(),
            Node::And(i, j) | Node::Or(i, j) => 3 + self.width(i) + self.width(j),
            Node::Eventually(i) | Node::Always(i) => 1 + self.width(i),
        }
    }

    // Writes subformula k at a place, and gives the place behind it.
    #[cycle(writing)]
    #[tactic(auto, using(crate::proofs::Parts::part_at, crate::proofs::Pasting::wrote_as))]
    fn write_part(&self, k: u8, out: &mut [u8], at: usize) -> usize
        requires { (k < length (nodes_in self.now)) × (at + length (part_in self.now k) ≤ length out.old) }
        ensures { Wrote at (part_in self.now k) out.old result out.new }
    {
        match self.node(usize::from(k)) {
            Node::True => put(out, at, b"tt"),
            Node::False => put(out, at, b"ff"),
            Node::Atom(a) => put(out, at, self.names.get(usize::from(a))),
            Node::NotAtom(a) => {
                let name = put(out, at, b"!");
                put(out, name, self.names.get(usize::from(a)))
            }
            Node::And(i, j) => self.write_joined(i, b'&', j, out, at),
            Node::Or(i, j) => self.write_joined(i, b'|', j, out, at),
            Node::Eventually(i) => self.write_behind(b'F', i, out, at),
            Node::Always(i) => self.write_behind(b'G', i, out, at),
        }
    }

    // Writes a mark and a subformula behind it, and gives the place behind both.
    #[cycle(writing)]
    fn write_behind(&self, mark: u8, i: u8, out: &mut [u8], at: usize) -> usize
        requires { (i < length (nodes_in self.now)) × (at + (1 + length (part_in self.now i)) ≤ length out.old) }
        ensures { Wrote at (mark ∷ part_in self.now i) out.old result out.new }
    {
        let part = put(out, at, &[mark]);
        self.write_part(i, out, part)
    }

    // Writes two subformulae in brackets with a mark between them, and gives the place behind.
    #[cycle(writing)]
    fn write_joined(&self, i: u8, mark: u8, j: u8, out: &mut [u8], at: usize) -> usize
        requires parts { (i < length (nodes_in self.now)) × (j < length (nodes_in self.now)) }
        requires room { at + (3 + length (part_in self.now i) + length (part_in self.now j)) ≤ length out.old }
        ensures { Wrote at (40 ∷ (part_in self.now i ++ (mark ∷ (part_in self.now j ++ (41 ∷ []))))) out.old result out.new }
    {
        let first = put(out, at, b"(");
        let operator = self.write_part(i, out, first);
        let second = put(out, operator, &[mark]);
        let bracket = self.write_part(j, out, second);
        put(out, bracket, b")")
    }

    // Writes the rule without blanks into the front of the output and gives its length; refused, the output stays as it is.
    pub fn write(&self, out: &mut [u8]) -> Result<usize, Refusal>
        ensures outcome { answer (λ n. n) result ≡ writing self.now (length out.old) }
        ensures after { out.new ≡ written_into self.now out.old }
        ensures trip { (text : List ℕ) → reading (names_in self.now) text ≡ Ok (nodes_in self.now) → Returns (names_in self.now) text (nodes_in self.now) }
    {
        let root = (self.count() - 1) as u8; // one of at most 32
        if out.len() < self.width(root) {
            return Err(Refusal::new(Cause::ShortOutput, Layer::Rule, 0));
        }
        Ok(self.write_part(root, out, 0))
    }
}
