// Making the automaton of a rule: what is looked up, over all its forecasts.
ghost use Rattle.std.specs.Prelude.{◌≡◌, ℕ, ◌^◌, ◌<◌, ◌≤◌, ◌==◌, length, take};
ghost use Rattle.std.specs.List.{list_any};
ghost use Rattle.few.specs.Items.{items};
ghost use Rattle.ltl.specs.Arena.{temporals};
ghost use Rattle.rule.specs.Rules.{names_in, nodes_in};
ghost use Rattle.translate.specs.States.{member};
ghost use Rattle.translate.specs.Tables.{PossibleOnly, Tabled};

use crate::held::RuleAcceptor;
use crate::listing::all_pairs;
use crate::row::Row;
use crate::state::Forecasts;
use few::Few;
use outlook::{forecast_count, recasts_of, rule_letters};
use rule::Rule;

// The rows of all forecasts.
fn all_rows(rule: &Rule) -> Few<Row, 256>
    ensures { Tabled (length (names_in rule.now)) (nodes_in rule.now) (2 ^ temporals (nodes_in rule.now)) (items result) }
{
    let mut rows = Few::new(Row {
        recasts: [0; 64],
        root: 0,
    });
    for forecast in (0..=u8::MAX).take(forecast_count(rule)) {
        let row = Row {
            recasts: recasts_of(rule, forecast),
            root: rule_letters(rule, forecast),
        };
        // there is room, since there are at most 256 forecasts
        rows.push(row).unwrap();
    }
    rows
}

// The forecasts that are the recast of some forecast by some letter.
fn all_recasts(rule: &Rule, rows: &[Row]) -> Forecasts
    requires { Tabled (length (names_in rule.now)) (nodes_in rule.now) (2 ^ temporals (nodes_in rule.now)) rows.now }
    ensures { PossibleOnly (length (names_in rule.now)) (nodes_in rule.now) result }
{
    let letters = rule.letter_count();
    let mut recasts = Forecasts::NONE;
    for row in rows {
        recasts.insert_all(&row.recasts[..letters]);
    }
    recasts
}

impl RuleAcceptor {
    // Computes once what all questions look up.
    pub fn new(rule: &Rule) -> RuleAcceptor
        ensures { result.rule ≡ rule.now }
    {
        let rows = all_rows(rule);
        RuleAcceptor {
            rule: *rule,
            rows,
            possible: all_recasts(rule, rows.as_slice()),
            pairs: all_pairs(rule),
        }
    }
}
