// The straight verdict: from a rule and a round alone, subformula by subformula.
ghost use Rattle.std.specs.Prelude.{◌≡◌, ◌+◌, ◌<◌, length};
ghost use Rattle.refusal.specs.Answers.{answer};
ghost use Rattle.rule.specs.Rules.{nodes_in, names_in, formula_in};
ghost use Rattle.evaluate.specs.Marks.{Below, Cycled, Led, Told};
ghost use Rattle.evaluate.specs.Verdicts.{ready, Verdict};

use crate::subformula::Subformula;
use bits::has_bit;
use refusal::{Cause, Layer, Refusal};
use round::Round;
use rule::Rule;

impl Subformula {
    // Puts the bit into the words of the cycle.
    fn mark_cycle(&self, cycle: &[u8], words: &mut [u32])
        requires room { length words.old ≡ length cycle.now }
        requires below { Below self.now.number words.old }
        ensures { Cycled self.now.node self.now.number cycle.now words.old words.new }
    {
        // the position behind any of the cycle is one of the cycle again
        let next = self.is_settled(words);
        // by an index, since a proof knows nothing of words that a zip lends
        for (i, word) in words.iter_mut().enumerate() {
            self.mark(cycle[i], next, word);
        }
    }

    // Puts the bit into the words of the lead-in, backwards, since an F or a G goes by the position behind.
    fn mark_lead(&self, lead: &[u8], behind: bool, words: &mut [u32])
        requires room { length words.old ≡ length lead.now }
        requires below { Below self.now.number words.old }
        ensures { Led self.now.node self.now.number lead.now behind words.old words.new }
    {
        let mut next = behind;
        // by an index, since a proof knows nothing of words that are lent in reverse
        for i in (0..lead.len()).rev() {
            next = self.mark(lead[i], next, &mut words[i]);
        }
    }
}

// Fills the words of the letters, a subformula at a time; the parts of each come before it.
fn fill(rule: &Rule, round: Round<'_>, row: &mut [u32])
    requires some { 0 < length round.cycle.now }
    requires room { length row.old ≡ length round.lead.now + length round.cycle.now }
    ensures { Told (nodes_in rule.now) round.entry.lead.now round.entry.cycle.now (length (nodes_in rule.now)) row.new }
{
    // nothing is read that was not written
    row.fill(0);
    let (lead_words, cycle_words) = row.split_at_mut(round.lead.len());
    for (k, node) in rule.nodes().iter().enumerate() {
        let subformula = Subformula {
            node: *node,
            number: k,
        };
        subformula.mark_cycle(round.cycle, cycle_words);
        let behind = has_bit(cycle_words[0], k);
        subformula.mark_lead(round.lead, behind, lead_words);
    }
}

// Whether the round satisfies the rule. The row has a word for each letter, whose bit k says that subformula k holds there; it is scrap afterwards.
pub fn satisfies(rule: &Rule, round: Round<'_>, row: &mut [u32]) -> Result<bool, Refusal>
    ensures { Verdict (ready (length (names_in rule.now)) round.entry.lead.now round.entry.cycle.now (length row.old)) (formula_in rule.now) round.entry.lead.now round.entry.cycle.now (answer (λ b. b) result) }
{
    round.check(rule.name_count())?;
    let letters = round.lead.len() + round.cycle.len();
    if row.len() < letters {
        return Err(Refusal::new(Cause::ShortOutput, Layer::Round, 0));
    }
    let words = &mut row[..letters];
    fill(rule, round, words);
    Ok(has_bit(words[0], rule.count() - 1))
}
