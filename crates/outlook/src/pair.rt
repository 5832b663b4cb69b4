// A pair of the rule's automaton, by the letters that its sets are told by.
use few::Few;

#[derive(Clone, Copy)]
pub struct Pair {
    pub forecast: u8,
    // the letters at which some `G q` of the forecast has q fail
    pub breaking: u64,
    // the letters of each visit set
    pub visits: Few<u64, 8>,
}
