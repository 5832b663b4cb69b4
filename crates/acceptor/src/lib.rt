// What runs on a round, what accepts it, and the judge of runs.
#![tactic(auto)]

pub mod judge;
pub mod judgement;
mod steps;
mod stretch;
mod trail;
pub mod traits;

pub use judgement::Judgement;
pub use traits::{Acceptor, Course};
