// By the rule's automaton itself.
ghost use Rattle.std.specs.Prelude.{length};
ghost use Rattle.refusal.specs.Answers.{answer};
ghost use Rattle.ltl.specs.Words.{Satisfies};
ghost use Rattle.ltl.specs.Rounds.{spelling};
ghost use Rattle.rule.specs.Rules.{formula_in};
ghost use Rattle.machine.specs.Judging.{Judged, Tells};
ghost use Rattle.acceptor.specs.Said.{told, machine};
ghost use Rattle.translate.specs.Meaning.{rule_moves, rule_judges};

use acceptor::Judgement;
use acceptor::judge::judge;
use refusal::Refusal;
use round::Round;
use translate::{RuleAcceptor, State};

// Judges a round; a yes means that its endless word satisfies the rule, a no that it does not. The trail is scrap afterwards.
pub fn judge_bare(
    acceptor: &RuleAcceptor,
    round: Round<'_>,
    trail: &mut [State],
) -> Result<Judgement, Refusal>
    ensures judged { Judged (machine (rule_moves acceptor.now) (rule_judges acceptor.now))
        round.entry.lead.now round.entry.cycle.now (length trail.old) (answer told result) }
    ensures satisfied { Tells
        (Satisfies (spelling round.entry.lead.now round.entry.cycle.now) (formula_in acceptor.now.rule))
        (answer told result) }
{
    judge(acceptor, round, trail)
}
