// What a rule is made of, for those who judge rounds by it.
ghost use Rattle.std.specs.Prelude.{◌≡◌, ◌^◌, ◌<◌, ◌≤◌, length, slice_index_or};
ghost use Rattle.ltl.specs.Arena.{temporals};
ghost use Rattle.rule.specs.Rules.{nodes_in, names_in};

use crate::held::Rule;
use crate::temporal::temporals_among;
use ltl::Node;

impl Rule {
    pub fn name_count(&self) -> usize
        ensures value { result ≡ length (names_in self.now) }
        ensures few { result ≤ 6 }
    {
        self.names.len()
    }

    // How many letters there are over the rule's names.
    pub fn letter_count(&self) -> usize
        ensures value { result ≡ 2 ^ length (names_in self.now) }
        ensures few { result ≤ 64 }
    {
        1 << self.name_count()
    }

    // How many of the subformulae are temporal.
    pub fn temporals(&self) -> usize
        ensures value { result ≡ temporals (nodes_in self.now) }
        ensures few { result ≤ 8 }
    {
        temporals_among(self.nodes())
    }

    // The distinct subformulae, each behind its parts; the last is the rule itself.
    pub fn nodes(&self) -> &[Node]
        ensures value { result.now ≡ nodes_in self.now }
        ensures some { 0 < length result.now }
        ensures few { length result.now ≤ 32 }
    {
        self.nodes.as_slice()
    }

    // How many distinct subformulae there are.
    pub fn count(&self) -> usize
        ensures value { result ≡ length (nodes_in self.now) }
        ensures some { 0 < result }
        ensures few { result ≤ 32 }
    {
        self.nodes.len()
    }

    // Subformula k, the constant truth where there is no such subformula: no Option, since this call never failed.
    pub fn node(&self, k: usize) -> Node
        ensures { result ≡ slice_index_or (nodes_in self.now) k Node.True }
    {
        self.nodes().get(k).copied().unwrap_or(Node::True)
    }
}
