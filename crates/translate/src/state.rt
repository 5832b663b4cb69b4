// States of a rule's automaton.

// A set of forecasts, a bit for each of 256.
#[derive(Clone, Copy, PartialEq, Eq)]
pub struct Forecasts {
    pub words: [u64; 4],
}

// The start, or an obligation with the last letter. An obligation is a set of forecasts.
#[derive(Clone, Copy, PartialEq, Eq)]
pub enum State {
    Start,
    Obliged { forecasts: Forecasts, letter: u8 },
}
