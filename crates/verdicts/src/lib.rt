// The judgement of a round by a rule's automaton: yes exactly when the round's endless word satisfies the rule.
#![tactic(auto)]

// Apart, since each lends a trail of its own kind of states and only one of them can be refused with 13.
mod bare;
mod turned;

pub use bare::judge_bare;
pub use turned::judge_turned;
