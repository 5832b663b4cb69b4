// The marks of a rule's text, each with its place.
#![tactic(auto)]

pub mod expect;
pub mod scan;
pub mod token;

pub use token::{Lexeme, Lexer, Token};
