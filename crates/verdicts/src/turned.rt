// By the turned acceptor over the rule's automaton.
ghost use Rattle.std.specs.Prelude.{length};
ghost use Rattle.refusal.specs.Answers.{answer};
ghost use Rattle.ltl.specs.Words.{Satisfies};
ghost use Rattle.ltl.specs.Rounds.{spelling};
ghost use Rattle.rule.specs.Rules.{formula_in};
ghost use Rattle.machine.specs.Judging.{Tells};
ghost use Rattle.acceptor.specs.Said.{told, machine};
ghost use Rattle.translate.specs.Meaning.{rule_moves, rule_judges};
ghost use Rattle.verdicts.specs.Turned.{TurnedJudged};

use acceptor::Judgement;
use acceptor::judge::judge;
use degeneralize::Turned;
use refusal::Refusal;
use round::Round;
use translate::{RuleAcceptor, State};
use turning::TurnedState;

// Judges a round by plain pairs, one visit set each; refused where the rule has more than 16 pairs.
pub fn judge_turned(
    acceptor: &RuleAcceptor,
    round: Round<'_>,
    trail: &mut [TurnedState<State>],
) -> Result<Judgement, Refusal>
    ensures judged { TurnedJudged (machine (rule_moves acceptor.now) (rule_judges acceptor.now))
        round.entry.lead.now round.entry.cycle.now (length trail.old) (answer told result) }
    ensures satisfied { Tells
        (Satisfies (spelling round.entry.lead.now round.entry.cycle.now) (formula_in acceptor.now.rule))
        (answer told result) }
{
    let turned = Turned::new(acceptor)?;
    judge(&turned, round, trail)
}
