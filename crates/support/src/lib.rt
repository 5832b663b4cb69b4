// What the programs share: reading names, rules and letters as their tables write them, and a rule's written text.
#![tactic(auto)]

ghost use Rattle.std.specs.Prelude.{◌≡◌, ◌<◌, ◌++◌, [], Some, codes, if◌then◌else◌, IfOk, length};
ghost use Rattle.refusal.specs.Answers.{answer, and_then};
ghost use Rattle.grammar.specs.Descent.{reading};
ghost use Rattle.names.specs.Listed.{spelled_names};
ghost use Rattle.support.specs.Printed.{answer_output, line_text};
ghost use Rattle.support.specs.Tables.{bytes_in, declared_all, digit_in, listed};
ghost use Rattle.rule.specs.Rules.{nodes_in, names_in};
ghost use Rattle.rule.specs.Written.{word_in, writing};

use names::Names;
use refusal::Refusal;
use rule::Rule;
use std::alloc::Allocator;
use std::fmt;

// Names with commas between them; an empty text has none.
pub fn declare(words: &str) -> Result<Names, Refusal>
    ensures { answer spelled_names result ≡ declared_all [] (listed words.now) }
{
    let mut names = Names::none();
    if words.is_empty() {
        return Ok(names);
    }
    for word in words.split(',') {
        names.declare(word.as_bytes())?;
    }
    Ok(names)
}

// The rule that a text spells under such names.
pub fn read_rule(words: &str, text: &str) -> Result<Rule, Refusal>
    ensures outcome { answer nodes_in result ≡ and_then (declared_all [] (listed words.now)) (λ names. reading names text.now) }
    ensures names { IfOk result (λ rule. declared_all [] (listed words.now) ≡ Ok (names_in rule)) }
{
    let names = declare(words)?;
    Rule::read(&names, text.as_bytes())
}

// What a hexadecimal digit counts; 0 where it is none.
fn digit(b: u8) -> u8
    ensures value { result ≡ digit_in b }
    ensures few { result < 16 }
{
    match b {
        b'0'..=b'9' => b - b'0',
        b'a'..=b'f' => b - b'a' + 10,
        _ => 0,
    }
}

// Bytes written in hexadecimal, two digits each.
pub fn bytes_of<A: Allocator>(alloc: A, text: &str) -> anyhow::Result<Vec<u8, A>>
    ensures { IfOk result (λ bytes. bytes.items ≡ bytes_in text.now) }
{
    let mut bytes = Vec::new(alloc);
    let mut rest = text.as_bytes();
    while let [high, low, behind @ ..] = rest {
        bytes.push(digit(*high) * 16 + digit(*low))?;
        rest = behind;
    }
    Ok(bytes)
}

// A rule as it is written into a lent output, or the refusal where there is too little room.
pub fn written<'a>(rule: &Rule, out: &'a mut [u8]) -> anyhow::Result<Result<&'a str, Refusal>>
    ensures value { IfOk result (λ came. IfOk came (λ text. text.now ≡ word_in rule.now)) }
    ensures refusal { IfOk result (λ came. answer (λ text. length text.now) came ≡ writing rule.now (length out.old)) }
{
    match rule.write(out) {
        Ok(length) => Ok(Ok(std::str::from_utf8(&out[..length])?)),
        Err(refusal) => Ok(Err(refusal)),
    }
}

// The line of a rule, which lies in a lent output: its written text, or the refusal where there was too little room.
#[derive(Clone, Copy, Debug)]
pub struct RuleLine<'a>(pub Result<&'a str, Refusal>);

impl fmt::Display for RuleLine<'_> {
    ghost output = { λ line. Some (line_text (λ text. text.now) line.0) };

    fn fmt<W: fmt::Write>(&self, f: &mut fmt::Formatter<W>) -> fmt::Result {
        match self.0 {
            Ok(text) => write!(f, "rule {text}"),
            Err(refusal) => write!(f, "{refusal}"),
        }
    }
}

// The line of a rule, written into a lent output, so that printing it needs no memory of its own.
pub fn rule_line<'a>(rule: &Rule, out: &'a mut [u8]) -> anyhow::Result<RuleLine<'a>>
    ensures granted { IfOk result (λ line. IfOk (writing rule.now (length out.old)) (λ _. line_text (λ text. text.now) line.0 ≡ codes "rule " ++ word_in rule.now)) }
    ensures came { IfOk result (λ line. answer (λ text. length text.now) line.0 ≡ writing rule.now (length out.old)) }
{
    Ok(RuleLine(written(rule, out)?))
}

// How a verdict is printed.
pub fn yes_or_no(verdict: bool) -> &'static str
    ensures { result.now ≡ (if verdict then codes "yes" else codes "no") }
{
    if verdict { "yes" } else { "no" }
}

// What came of a question, as it is printed: the answer, or the refusal.
#[derive(Clone, Copy, Debug)]
pub struct Answer<T>(pub Result<T, Refusal>);

impl<T: fmt::Display> fmt::Display for Answer<T> {
    ghost output = { λ a. answer_output T.output a.0 };

    fn fmt<W: fmt::Write>(&self, f: &mut fmt::Formatter<W>) -> fmt::Result {
        match &self.0 {
            Ok(answer) => answer.fmt(f),
            Err(refusal) => refusal.fmt(f),
        }
    }
}
