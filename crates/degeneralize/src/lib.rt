// The turned acceptor: over an acceptor of at most 16 pairs, one whose pairs have one visit set each.
#![tactic(auto)]

pub mod turned;
mod turns;

pub use turned::Turned;
