// A rule as it is held: its names, and its formula as the list of its distinct subformulae.
ghost use Rattle.std.specs.Prelude.{◌≡◌, ◌<◌, ◌≤◌, true, length};
ghost use Rattle.few.specs.Items.{items};
ghost use Rattle.names.specs.Listed.{spelled_names};
ghost use Rattle.ltl.specs.Arena.{all_sound, temporals, arena, root};
ghost use Rattle.grammar.specs.Writing.{written};

use few::Few;
use ltl::Node;
use names::Names;

#[derive(Clone, Copy)]
pub struct Rule {
    pub(crate) names: Names,
    pub(crate) nodes: Few<Node, 32>,
    ghost some: { 0 < length (items nodes) },
    ghost sound: { all_sound (length (spelled_names names)) 0 (items nodes) ≡ true },
    ghost temporal: { temporals (items nodes) ≤ 8 },
    ghost numbered: { arena (root (items nodes)) ≡ items nodes },
    ghost short: { length (written (spelled_names names) (items nodes)) ≤ 1024 },
}
