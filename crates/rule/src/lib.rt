// A rule's text, read into the numbered formula and written back.
#![tactic(auto)]

pub mod access;
pub mod held;
pub mod pool;
pub mod reader;
pub mod reading;
pub mod store;
mod temporal;
pub mod writing;

pub use held::Rule;
pub use reading::LONGEST_TEXT;
