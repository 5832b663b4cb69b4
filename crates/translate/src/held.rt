// The automaton of a rule, with all that can be looked up.
ghost use Rattle.std.specs.Prelude.{◌^◌, length};
ghost use Rattle.few.specs.Items.{items};
ghost use Rattle.ltl.specs.Arena.{temporals};
ghost use Rattle.rule.specs.Rules.{nodes_in, names_in};
ghost use Rattle.translate.specs.Tables.{Listed, PossibleOnly, Tabled};

use crate::row::Row;
use crate::state::Forecasts;
use few::Few;
use outlook::Pair;
use rule::Rule;

#[derive(Clone, Copy)]
pub struct RuleAcceptor {
    pub(crate) rule: Rule,
    // one row for each forecast
    pub(crate) rows: Few<Row, 256>,
    pub(crate) possible: Forecasts,
    // one pair for each steady forecast
    pub(crate) pairs: Few<Pair, 256>,
    ghost tabled: { Tabled (length (names_in rule)) (nodes_in rule) (2 ^ temporals (nodes_in rule)) (items rows) },
    ghost flagged: { PossibleOnly (length (names_in rule)) (nodes_in rule) possible },
    ghost listed: { Listed (length (names_in rule)) (nodes_in rule) (2 ^ temporals (nodes_in rule)) (items pairs) },
}
