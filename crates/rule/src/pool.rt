// The distinct subformulae found so far.
use few::Few;
use ltl::Node;

#[derive(Clone, Copy)]
pub struct Pool {
    pub nodes: Few<Node, 32>,
    // whether a subformula found no place; the nodes are still searched then, since reading goes on
    pub over: bool,
}
