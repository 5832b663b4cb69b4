// The recasts of a forecast, one for each letter.
ghost use Rattle.std.specs.Prelude.{◌≡◌, ℕ, ◌+◌, ◌^◌, ◌<◌, ◌≤◌, cond, length, slice_index};
ghost use Rattle.ltl.specs.Words.{bit};
ghost use Rattle.rule.specs.Rules.{nodes_in, names_in};
ghost use Rattle.forecast.specs.Forecasts.{recast};
ghost use Rattle.outlook.specs.Letters.{Added};

use crate::deciding::Deciding;
use crate::letters::letters_under;
use bits::{has_bit, with_bit};
use rule::Rule;

// Adds bit `rank` to the forecast of each letter in the word.
fn add_bit(row: &mut [u8], word: u64, rank: usize)
    requires few { rank < 8 }
    requires below { (a : ℕ) → a < length row.old → slice_index row.old a < 2 ^ rank }
    ensures { Added word rank (length row.old) row.old row.new }
{
    for (a, forecast) in row.iter_mut().enumerate() {
        *forecast = with_bit(*forecast, rank, has_bit(word, a));
    }
}

// The recast of a forecast by each of the rule's letters.
pub fn recasts_of(rule: &Rule, forecast: u8) -> [u8; 64]
    ensures { (a : ℕ) → a < 2 ^ length (names_in rule.now) → slice_index result a ≡ recast (nodes_in rule.now) a forecast }
{
    let words = letters_under(rule, forecast, Deciding::Renewed);
    let letters = rule.letter_count();
    let temporal = rule
        .nodes()
        .iter()
        .zip(words.iter())
        .filter(|(node, _)| node.is_temporal());
    let mut row = [0; 64];
    for (rank, (_, word)) in temporal.enumerate() {
        add_bit(&mut row[..letters], *word, rank);
    }
    row
}
