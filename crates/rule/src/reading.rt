// From a text to a rule.
ghost use Rattle.std.specs.Prelude.{◌≡◌, IfOk};
ghost use Rattle.refusal.specs.Answers.{answer};
ghost use Rattle.names.specs.Listed.{spelled_names};
ghost use Rattle.grammar.specs.Descent.{Held, counted, whole_text, reading};
ghost use Rattle.rule.specs.Pools.{held};
ghost use Rattle.rule.specs.Rules.{nodes_in, names_in, ByGrammar, Enumerates};

use crate::held::Rule;
use crate::pool::Pool;
use crate::reader::Reader;
use crate::temporal::temporals_among;
use lexer::Lexer;
use names::Names;
use refusal::{Cause, Layer, Refusal};

// The most bytes of a rule's text, and so of its written form.
pub const LONGEST_TEXT: usize = 1024;

// The subformulae of a whole text.
fn read_text(names: &Names, text: &[u8]) -> Result<Pool, Refusal>
    ensures { answer held result ≡ whole_text (spelled_names names.now) text.now }
{
    let mut reader = Reader {
        names,
        lexer: Lexer::new(text),
        pool: Pool::new(),
    };
    let _ = reader.read_rule(24)?;
    reader.lexer.end()?;
    Ok(reader.pool)
}

// The subformulae of a text that keeps within all limits. Names and text are handed down as they came; in a `Reader` they are one value.
fn read_within(names: &Names, text: &[u8]) -> Result<Pool, Refusal>
    ensures { answer (λ p. (held p).nodes) result ≡ reading (spelled_names names.now) text.now }
{
    if text.len() > LONGEST_TEXT {
        return Err(Refusal::new(Cause::LongText, Layer::Rule, 0));
    }
    let pool = read_text(names, text)?;
    if pool.over {
        return Err(Refusal::new(Cause::ManySubformulae, Layer::Rule, 0));
    }
    if temporals_among(pool.nodes.as_slice()) > 8 {
        return Err(Refusal::new(Cause::ManyTemporal, Layer::Rule, 0));
    }
    Ok(pool)
}

impl Rule {
    // Reads a text under the names, or says by which condition it is no rule.
    pub fn read(names: &Names, text: &[u8]) -> Result<Rule, Refusal>
        ensures outcome { answer nodes_in result ≡ reading (spelled_names names.now) text.now }
        ensures names { IfOk result (λ x. names_in x ≡ spelled_names names.now) }
        ensures grammar { ByGrammar (spelled_names names.now) text.now (answer nodes_in result) }
        ensures numbering { IfOk result Enumerates }
    {
        let pool = read_within(names, text)?;
        Ok(Rule {
            names: *names,
            nodes: pool.nodes,
        })
    }
}
