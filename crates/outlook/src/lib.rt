// What the forecasts of a rule say, for all letters at once.
#![tactic(auto)]

mod deciding;
mod letters;
mod odds;
mod outlook;
mod pair;
mod pairing;
mod recasts;

pub use pair::Pair;
pub use pairing::{forecast_count, pair_of, rule_letters};
pub use recasts::recasts_of;
