// The pairs of a rule, one for each steady forecast.
ghost use Rattle.std.specs.Prelude.{◌^◌, length};
ghost use Rattle.few.specs.Items.{items};
ghost use Rattle.ltl.specs.Arena.{temporals};
ghost use Rattle.rule.specs.Rules.{nodes_in, names_in};
ghost use Rattle.translate.specs.Tables.{Listed};

use few::Few;
use outlook::{Pair, forecast_count, pair_of};
use rule::Rule;

// The pairs of the steady forecasts in the order of their numbers.
pub(crate) fn all_pairs(rule: &Rule) -> Few<Pair, 256>
    ensures { Listed (length (names_in rule.now)) (nodes_in rule.now) (2 ^ temporals (nodes_in rule.now)) (items result) }
{
    let mut pairs = Few::new(Pair {
        forecast: 0,
        breaking: 0,
        visits: Few::new(0),
    });
    for forecast in (0..=u8::MAX).take(forecast_count(rule)) {
        if let Some(pair) = pair_of(rule, forecast) {
            // there is room, since there are at most 256 forecasts
            pairs.push(pair).unwrap();
        }
    }
    pairs
}
