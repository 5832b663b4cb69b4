// How temporal subformulae get their values at a letter and a forecast.

// The promise of the letters names the way, which a closure would have to promise anew at each call.
#[derive(Clone, Copy)]
pub enum Deciding {
    // by the forecast alone
    Kept,
    // anew, as a recast does it
    Renewed,
}
