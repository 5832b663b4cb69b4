// Whether a round satisfies a rule, from the two alone.
#![tactic(auto)]

mod subformula;
pub mod verdict;

pub use verdict::satisfies;
