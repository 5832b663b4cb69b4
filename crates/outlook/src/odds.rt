// The letters that a forecast is at odds with.
#[derive(Clone, Copy)]
pub struct Odds {
    // some `G q` within the forecast has q fail
    pub breaking: u64,
    // some `F q` outside the forecast has q hold
    pub barred: u64,
}
