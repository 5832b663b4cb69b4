// The sheet that the office writes: names, a rule, and rounds, as a row of fields.
#![tactic(auto)]

pub mod order;
pub mod reading;
pub mod turns;
pub mod view;

pub use reading::MOST_BYTES;
pub use view::{Rounds, Sheet};
