// The automaton of a rule.
#![tactic(auto)]

pub mod course;
mod forecasts;
mod held;
mod listing;
mod making;
mod obligation;
pub mod pairs;
mod row;
mod state;

pub use held::RuleAcceptor;
pub use state::{Forecasts, State};
