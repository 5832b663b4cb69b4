// What is known of a rule under one of its forecasts, at all letters at once.
ghost use Rattle.std.specs.Prelude.{◌≡◌, length};
ghost use Rattle.rule.specs.Rules.{nodes_in};
ghost use Rattle.outlook.specs.declared.deciding.Deciding.TheVariants.{Kept};
ghost use Rattle.outlook.specs.Letters.{Told};

use crate::deciding::Deciding;
use crate::letters::letters_under;
use rule::Rule;

#[derive(Clone, Copy)]
pub(crate) struct Outlook<'a> {
    pub(crate) rule: &'a Rule,
    pub(crate) forecast: u8,
    // the letters at which each subformula holds, in fixed places, since the library allocates nothing
    pub(crate) words: [u64; 32],
    ghost told: { Told Kept (nodes_in rule.now) forecast (length (nodes_in rule.now)) words },
}

impl<'a> Outlook<'a> {
    pub(crate) fn new(rule: &'a Rule, forecast: u8) -> Outlook<'a>
        ensures rule { result.rule.now ≡ rule.now }
        ensures forecast { result.forecast ≡ forecast }
    {
        Outlook {
            rule,
            forecast,
            words: letters_under(rule, forecast, Deciding::Kept),
        }
    }
}
