// Reading a rule by recursive descent over its text.
ghost use Rattle.std.specs.Prelude.{◌≡◌, length, Err};
ghost use Rattle.refusal.specs.Answers.{answer, and_then, said};
ghost use Rattle.names.specs.Listed.{spelled_names};
ghost use Rattle.grammar.specs.Descent.{known, lex, negated_name, too_deep_at, descend};
ghost use Rattle.lexer.specs.Tokens.{text_of, remaining, alone};
ghost use Rattle.rule.specs.Pools.{held, stepped};

use crate::pool::Pool;
use lexer::{Lexeme, Lexer, Token};
use ltl::Node;
use names::Names;
use refusal::{Cause, Layer, Refusal};

// A text that is being read, with the names that it may speak of and what has been found in it.
#[derive(Drop)]
pub(crate) struct Reader<'a> {
    pub names: &'a Names,
    pub lexer: Lexer<'a>,
    pub pool: Pool,
}

// What is wrong with a mark at which a rule would be too deep: where no rule can begin with it, it is unexpected as everywhere.
fn too_deep(lexeme: Lexeme<'_>) -> Refusal
    ensures { Err (said result) ≡ too_deep_at (alone lexeme.entry) }
{
    let cause = match lexeme.token {
        Token::And | Token::Or | Token::Close | Token::End => Cause::UnexpectedMark,
        _ => Cause::DeepRule,
    };
    Refusal::new(cause, Layer::Rule, lexeme.place)
}

impl Reader<'_> {
    // The number of a name that stands at a place.
    fn number_of(&self, word: &[u8], place: usize) -> Result<u8, Refusal>
        ensures { answer (λ k. k) result ≡ known (spelled_names self.now.names.now) word.now place }
    {
        match self.names.find(word) {
            Some(k) => Ok(k as u8), // one of at most six
            None => Err(Refusal::new(Cause::UndeclaredName, Layer::Rule, place)),
        }
    }

    // What stands behind a `!`.
    fn read_negated(&mut self) -> Result<u8, Refusal>
        ensures outcome { answer (stepped self.new.pool self.new.lexer) result ≡ and_then (lex (length (text_of self.old.lexer)) (remaining self.old.lexer)) (λ y. negated_name (spelled_names self.old.names.now) (held self.old.pool) y y.mark) }
        ensures same { text_of self.new.lexer ≡ text_of self.old.lexer }
        ensures names { self.new.names.now ≡ self.old.names.now }
    {
        let lexeme = self.lexer.next()?;
        match lexeme.token {
            Token::Name(word) => {
                let k = self.number_of(word, lexeme.place)?;
                Ok(self.pool.put(Node::NotAtom(k)))
            }
            _ => Err(Refusal::new(Cause::UnexpectedMark, Layer::Rule, lexeme.place)),
        }
    }

    // A rule with `left` levels of depth to go, which makes the descent end. At none left a rule is too deep.
    #[tactic(auto, using(crate::proofs::Levels::one_level, crate::proofs::Levels::no_level))]
    pub(crate) fn read_rule(&mut self, left: u8) -> Result<u8, Refusal>
        ensures outcome { answer (stepped self.new.pool self.new.lexer) result ≡ descend left (spelled_names self.old.names.now) (length (text_of self.old.lexer)) (held self.old.pool) (remaining self.old.lexer) }
        ensures same { text_of self.new.lexer ≡ text_of self.old.lexer }
        ensures names { self.new.names.now ≡ self.old.names.now }
    {
        let lexeme = self.lexer.next()?;
        if left == 0 {
            return Err(too_deep(lexeme));
        }
        match lexeme.token {
            Token::True => Ok(self.pool.put(Node::True)),
            Token::False => Ok(self.pool.put(Node::False)),
            Token::Name(word) => {
                let k = self.number_of(word, lexeme.place)?;
                Ok(self.pool.put(Node::Atom(k)))
            }
            Token::Not => self.read_negated(),
            Token::Eventually => {
                let part = self.read_rule(left - 1)?;
                Ok(self.pool.put(Node::Eventually(part)))
            }
            Token::Always => {
                let part = self.read_rule(left - 1)?;
                Ok(self.pool.put(Node::Always(part)))
            }
            Token::Open => {
                let first = self.read_rule(left - 1)?;
                let operator = self.lexer.operator()?;
                let second = self.read_rule(left - 1)?;
                self.lexer.closing()?;
                Ok(self.pool.put(operator.join(first, second)))
            }
            _ => Err(Refusal::new(Cause::UnexpectedMark, Layer::Rule, lexeme.place)),
        }
    }
}
