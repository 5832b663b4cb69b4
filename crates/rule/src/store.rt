// Putting subformulae into the pool, each once.
ghost use Rattle.std.specs.Prelude.{◌≡◌};
ghost use Rattle.std.specs.List.{position_from};
ghost use Rattle.ltl.specs.Arena.{same_node};
ghost use Rattle.grammar.specs.Descent.{Held, nothing_held, put};
ghost use Rattle.rule.specs.Pools.{held};

use crate::pool::Pool;
use few::{Few, Full};
use ltl::Node;

impl Pool {
    pub(crate) fn new() -> Pool
        ensures { held result ≡ nothing_held }
    {
        Pool {
            nodes: Few::new(Node::True),
            over: false,
        }
    }

    // The number of a node, where it is among them.
    fn find(&self, node: Node) -> Option<usize>
        ensures { result ≡ position_from (same_node node) 0 (held self.now).nodes }
    {
        let nodes = self.nodes.as_slice();
        nodes.iter().position(|known| node.is_same(*known))
    }

    // The number of a node, which is put behind the others where it is new. Past the last place it is only noted that there are
    // too many: reading goes on, and no number is looked at any more, so 0 will do for one.
    pub(crate) fn put(&mut self, node: Node) -> u8
        ensures after { held self.new ≡ (put node (held self.old)).0 }
        ensures number { result ≡ (put node (held self.old)).1 }
    {
        if let Some(at) = self.find(node) {
            return at as u8; // one of at most 32, as below
        }
        let at = self.nodes.len();
        match self.nodes.push(node) {
            Ok(()) => at as u8,
            Err(Full) => {
                self.over = true;
                0
            }
        }
    }
}
