// Reads one sheet from standard input and prints its rule and what the rule's automaton, turned, says of each round, or its refusal.
#![tactic(auto)]

use acceptor::Acceptor;
use degeneralize::Turned;
use rule::{LONGEST_TEXT, Rule};
use sheet::{MOST_BYTES, Sheet};
use std::io::Read;
use support::{Answer, rule_line};
use translate::{RuleAcceptor, State};
use turning::{MOST_PAIRS, TurnedState};
use verdicts::judge_turned;

// One byte more than a sheet may have, so that a longer one can be told.
const ENOUGH: u64 = MOST_BYTES as u64 + 1; // no `from` may stand in a constant

// How many states the judge keeps, at the ends of cycles.
const TRAIL: usize = 256;

fn print_rule(rt: &HostRuntime, rule: &Rule, acceptor: &RuleAcceptor) -> anyhow::Result<()> {
    let mut text = [0; LONGEST_TEXT];
    let line = rule_line(rule, &mut text)?;
    let pairs = acceptor.pairs();
    Ok(println!(rt; "{line} pairs {pairs}")?)
}

fn print_rounds(
    rt: &HostRuntime,
    sheet: &Sheet,
    bytes: &[u8],
    acceptor: &RuleAcceptor,
) -> anyhow::Result<()> {
    let unused = TurnedState {
        inner: State::Start,
        turns: [0; MOST_PAIRS],
    };
    let mut trail = vec![in rt.alloc(); unused; TRAIL]?;
    for (k, round) in sheet.rounds(bytes).enumerate() {
        let number = k + 1;
        let answer = Answer(judge_turned(acceptor, round, trail.as_mut_slice()));
        println!(rt; "round {number} {answer}")?;
    }
    Ok(())
}

// The rule and its rounds, or the refusal of a rule that has too many pairs.
fn print_judged(rt: &HostRuntime, sheet: &Sheet, bytes: &[u8]) -> anyhow::Result<()> {
    let acceptor = RuleAcceptor::new(&sheet.rule);
    match Turned::new(&acceptor) {
        Ok(_) => {
            print_rule(rt, &sheet.rule, &acceptor)?;
            print_rounds(rt, sheet, bytes, &acceptor)
        }
        Err(refusal) => Ok(println!(rt; "{refusal}")?),
    }
}

fn main(rt: HostRuntime) -> anyhow::Result<()> {
    let mut bytes = Vec::new(rt.alloc());
    let _ = rt.stdin().take(ENOUGH).read_to_end(&mut bytes)?;
    match Sheet::read(bytes.as_slice()) {
        Ok(sheet) => print_judged(&rt, &sheet, bytes.as_slice()),
        Err(refusal) => Ok(println!(rt; "{refusal}")?),
    }
}
