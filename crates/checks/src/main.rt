// Worked examples, one to a line of standard input, each printed with what came of it; the stored output says what must come.
#![tactic(auto)]

use anyhow::{Context, anyhow};
use evaluate::satisfies;
use round::Round;
use rule::{LONGEST_TEXT, Rule};
use sheet::Sheet;
use support::{Answer, bytes_of, declare, read_rule, rule_line, yes_or_no};

// A rule, written into an output with this much room.
fn print_rule(rt: &HostRuntime, rule: &Rule, room: usize) -> anyhow::Result<()> {
    let mut text = vec![in rt.alloc(); 0u8; room]?;
    let line = rule_line(rule, text.as_mut_slice())?;
    Ok(println!(rt; "{line}")?)
}

// NAMES alone
fn check_names(rt: &HostRuntime, words: &str) -> anyhow::Result<()> {
    match declare(words) {
        Ok(names) => {
            let count = names.len();
            println!(rt; "names {count}")?;
            Ok(())
        }
        Err(refusal) => Ok(println!(rt; "{refusal}")?),
    }
}

// NAMES:TEXT
fn check_rule(rt: &HostRuntime, line: &str, room: usize) -> anyhow::Result<()> {
    let (words, text) = line.split_once(':').context("a rule wants names:text")?;
    match read_rule(words, text) {
        Ok(rule) => print_rule(rt, &rule, room),
        Err(refusal) => Ok(println!(rt; "{refusal}")?),
    }
}

// ROOM NAMES:TEXT
fn check_room(rt: &HostRuntime, line: &str) -> anyhow::Result<()> {
    let (room, rest) = line.split_once(' ').context("room wants a number")?;
    check_rule(rt, rest, room.parse::<usize>()?)
}

fn print_sheet(rt: &HostRuntime, bytes: &[u8]) -> anyhow::Result<()> {
    match Sheet::read(bytes) {
        Ok(sheet) => print_rule(rt, &sheet.rule, LONGEST_TEXT),
        Err(refusal) => Ok(println!(rt; "{refusal}")?),
    }
}

// The sheet cut off at every length.
fn check_cuts(rt: &HostRuntime, bytes: &[u8]) -> anyhow::Result<()> {
    for end in 0..bytes.len() {
        print_sheet(rt, &bytes[0..end])?;
    }
    Ok(())
}

// The sheet with every single bit turned over, by its place, since the whole sheet is read at each turn.
fn check_flips(rt: &HostRuntime, mut bytes: Vec<u8>) -> anyhow::Result<()> {
    for i in 0..bytes.len() {
        for mask in [1, 2, 4, 8, 16, 32, 64, 128] {
            turn(&mut bytes, i, mask);
            print_sheet(rt, bytes.as_slice())?;
            turn(&mut bytes, i, mask);
        }
    }
    Ok(())
}

fn turn(bytes: &mut Vec<u8>, i: usize, mask: u8) {
    if let Some(b) = bytes.get_mut(i) {
        *b ^= mask;
    }
}

// ROW LEAD-IN CYCLE NAMES:TEXT, the letters in hexadecimal, or `-` for none
fn check_round(rt: &HostRuntime, line: &str) -> anyhow::Result<()> {
    let (row, rest) = line.split_once(' ').context("round wants a row")?;
    let (lead, rest) = rest.split_once(' ').context("round wants a lead-in")?;
    let (cycle, rest) = rest.split_once(' ').context("round wants a cycle")?;
    let (words, text) = rest.split_once(':').context("round wants names:text")?;
    let rule = match read_rule(words, text) {
        Ok(rule) => rule,
        Err(refusal) => return Ok(println!(rt; "{refusal}")?),
    };
    // what the row holds before must not matter
    let mut row = vec![in rt.alloc(); u32::MAX; row.parse::<usize>()?]?;
    let lead = bytes_of(rt.alloc(), lead)?;
    let cycle = bytes_of(rt.alloc(), cycle)?;
    let round = Round {
        lead: lead.as_slice(),
        cycle: cycle.as_slice(),
    };
    let verdict = satisfies(&rule, round, row.as_mut_slice());
    let answer = Answer(verdict.map(yes_or_no));
    Ok(println!(rt; "{answer}")?)
}

fn check_line(rt: &HostRuntime, line: &str) -> anyhow::Result<()> {
    let (kind, rest) = line.split_once(' ').context("a line wants a kind")?;
    match kind {
        "names" => check_names(rt, rest),
        "rule" => check_rule(rt, rest, LONGEST_TEXT),
        "room" => check_room(rt, rest),
        "round" => check_round(rt, rest),
        "sheet" => print_sheet(rt, bytes_of(rt.alloc(), rest)?.as_slice()),
        "cuts" => check_cuts(rt, bytes_of(rt.alloc(), rest)?.as_slice()),
        "flips" => check_flips(rt, bytes_of(rt.alloc(), rest)?),
        _ => Err(anyhow!("no such kind")),
    }
}

fn main(rt: HostRuntime) -> anyhow::Result<()> {
    for line in rt.lines(rt.alloc()) {
        check_line(&rt, line?.as_str())?;
    }
    Ok(())
}
