// What must stand between and behind the parts of a rule.
ghost use Rattle.std.specs.Prelude.{◌≡◌, Option, length};
ghost use Rattle.refusal.specs.Answers.{answer, and_then};
ghost use Rattle.grammar.specs.Marks.{Mark};
ghost use Rattle.grammar.specs.Marks.Mark.{closing, finish};
ghost use Rattle.grammar.specs.Descent.{lex, joint, due};
ghost use Rattle.lexer.specs.Tokens.{text_of, remaining, mark_in, taken_by};
ghost use Rattle.lexer.specs.declared.token.Token.{Token};

use crate::token::{Lexer, Token};
use ltl::Operator;
use refusal::{Cause, Layer, Refusal};

impl<'a> Lexer<'a> {
    // What is wanted of the next mark; a mark of which nothing is wanted is unexpected.
    fn expect<T: Drop, F: FnOnce(Token<'a>) -> Option<T>>(
        &mut self,
        wanted: F,
    ) -> Result<T, Refusal>
        requires { F.IsAlwaysCallable wanted }
        ensures outcome { (test : Mark → Option T) → ((token : Token) (got : Option T) → F.post wanted token got → got ≡ test (mark_in token))
            → answer (λ x. (x, remaining self.new)) result ≡ and_then (lex (length (text_of self.old)) (remaining self.old)) (taken_by test) }
        ensures same { text_of self.new ≡ text_of self.old }
    {
        let lexeme = self.next()?;
        let unexpected = Refusal::new(Cause::UnexpectedMark, Layer::Rule, lexeme.place);
        wanted(lexeme.token).ok_or(unexpected)
    }

    // The operator between two rules.
    pub fn operator(&mut self) -> Result<Operator, Refusal>
        ensures outcome { answer (λ o. (o, remaining self.new)) result ≡ and_then (lex (length (text_of self.old)) (remaining self.old)) joint }
        ensures same { text_of self.new ≡ text_of self.old }
    {
        self.expect(|token| match token {
            Token::And => Some(Operator::And),
            Token::Or => Some(Operator::Or),
            _ => None,
        })
    }

    // The bracket behind two rules.
    pub fn closing(&mut self) -> Result<(), Refusal>
        ensures outcome { answer (λ _. remaining self.new) result ≡ and_then (lex (length (text_of self.old)) (remaining self.old)) (due closing) }
        ensures same { text_of self.new ≡ text_of self.old }
    {
        self.expect(|token| matches!(token, Token::Close).then_some(()))
    }

    // The end of the text behind the whole rule.
    pub fn end(&mut self) -> Result<(), Refusal>
        ensures { answer (λ _. remaining self.new) result ≡ and_then (lex (length (text_of self.old)) (remaining self.old)) (due finish) }
    {
        self.expect(|token| matches!(token, Token::End).then_some(()))
    }
}
