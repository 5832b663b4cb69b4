// Rounds judged in every way there is: straight from rule and round, by the rule's automaton, and by that automaton turned. Standard
// input has a table of rules and rounds, the stored output what an independent model makes of them.
#![tactic(auto)]

use acceptor::{Acceptor, Judgement};
use anyhow::{Context, anyhow};
use evaluate::satisfies;
use round::{MOST_LETTERS, Round};
use rule::{LONGEST_TEXT, Rule};
use support::{Answer, bytes_of, declare, written, yes_or_no};
use translate::{RuleAcceptor, State};
use turning::{MOST_PAIRS, TurnedState};
use verdicts::{judge_bare, judge_turned};

const TRAIL: usize = 256;

// A rule that the table takes for granted is read, or what it was refused with is the program's end.
fn rule_of(line: &str) -> anyhow::Result<Rule> {
    let (words, text) = line.split_once(':').context("a rule wants names:text")?;
    let names = declare(words).map_err(|_| anyhow!("the names are refused"))?;
    Rule::read(&names, text.as_bytes()).map_err(|_| anyhow!("the rule is refused"))
}

fn print_rule(rt: &HostRuntime, rule: &Rule) -> anyhow::Result<()> {
    let pairs = RuleAcceptor::new(rule).pairs();
    let mut out = [0; LONGEST_TEXT];
    match written(rule, &mut out)? {
        Ok(text) => Ok(println!(rt; "rule {text} pairs {pairs}")?),
        Err(refusal) => Ok(print!(rt; "{refusal}")?),
    }
}

fn judge_straight(
    rt: &HostRuntime,
    rule: &Rule,
    round: Round<'_>,
) -> anyhow::Result<Answer<&'static str>> {
    let mut row = vec![in rt.alloc(); 0u32; MOST_LETTERS]?;
    let verdict = satisfies(rule, round, row.as_mut_slice());
    Ok(Answer(verdict.map(yes_or_no)))
}

fn judge_by_bare(
    rt: &HostRuntime,
    acceptor: &RuleAcceptor,
    round: Round<'_>,
) -> anyhow::Result<Answer<Judgement>> {
    let mut trail = vec![in rt.alloc(); State::Start; TRAIL]?;
    Ok(Answer(judge_bare(acceptor, round, trail.as_mut_slice())))
}

fn judge_by_turned(
    rt: &HostRuntime,
    acceptor: &RuleAcceptor,
    round: Round<'_>,
) -> anyhow::Result<Answer<Judgement>> {
    let unused = TurnedState {
        inner: State::Start,
        turns: [0; MOST_PAIRS],
    };
    let mut trail = vec![in rt.alloc(); unused; TRAIL]?;
    Ok(Answer(judge_turned(acceptor, round, trail.as_mut_slice())))
}

// LEAD-IN:CYCLE, judged by the rule above it
fn check_round(rt: &HostRuntime, rule: &Rule, line: &str) -> anyhow::Result<()> {
    let (lead, cycle) = line.split_once(':').context("a round wants lead-in:cycle")?;
    let lead = bytes_of(rt.alloc(), lead)?;
    let cycle = bytes_of(rt.alloc(), cycle)?;
    let round = Round {
        lead: lead.as_slice(),
        cycle: cycle.as_slice(),
    };
    // each answer is printed before the next way is tried
    let straight = judge_straight(rt, rule, round)?;
    print!(rt; "straight {straight}")?;
    let acceptor = RuleAcceptor::new(rule);
    let bare = judge_by_bare(rt, &acceptor, round)?;
    print!(rt; " bare {bare}")?;
    let turned = judge_by_turned(rt, &acceptor, round)?;
    Ok(println!(rt; " turned {turned}")?)
}

fn main(rt: HostRuntime) -> anyhow::Result<()> {
    let mut rule = rule_of(":tt")?;
    for line in rt.lines(rt.alloc()) {
        let line = line?;
        let (kind, rest) = line
            .as_str()
            .split_once(' ')
            .context("a line wants a kind")?;
        if kind == "rule" {
            rule = rule_of(rest)?;
            print_rule(&rt, &rule)?;
        } else {
            check_round(&rt, &rule, rest)?;
        }
    }
    Ok(())
}
