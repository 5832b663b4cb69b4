// The names that a rule may speak of: up to six, in the order of their bits.
#![tactic(auto)]

pub mod access;
pub mod declare;
pub mod list;
pub mod name;
pub mod spelling;

pub use list::Names;
