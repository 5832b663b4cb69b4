// Counting temporal subformulae.
ghost use Rattle.std.specs.Prelude.{◌≡◌};
ghost use Rattle.ltl.specs.Arena.{temporals};

use ltl::Node;

// How many of the nodes are temporal.
pub(crate) fn temporals_among(nodes: &[Node]) -> usize
    ensures { result ≡ temporals nodes.now }
{
    nodes.iter().filter(|node| node.is_temporal()).count()
}
