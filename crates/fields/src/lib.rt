// Fields: a tag byte, a length of two bytes with the high byte first, and that many bytes.
#![tactic(auto)]

pub mod piece;
pub mod walk;

pub use piece::{Cut, Field, Fields};
