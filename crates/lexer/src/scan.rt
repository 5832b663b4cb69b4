// From bytes to marks.
ghost use Rattle.std.specs.Prelude.{◌≡◌, ◌==◌, ◌+◌, ◌≤◌, length, drop};
ghost use Rattle.std.specs.List.{prefix_len};
ghost use Rattle.refusal.specs.Answers.{answer};
ghost use Rattle.names.specs.Names.{wordly};
ghost use Rattle.grammar.specs.Marks.{word_of, marks_from};
ghost use Rattle.grammar.specs.Descent.{lex};
ghost use Rattle.lexer.specs.Tokens.{mark_in, text_of, remaining, lexed, mark_at};

use crate::token::{Lexeme, Lexer, Token};
use names::spelling::{is_lower, is_wordly};
use refusal::{Cause, Layer, Refusal};

// How many blanks stand in front.
fn blank_count(bytes: &[u8]) -> usize
    ensures value { result ≡ prefix_len (λ b. b == 32) bytes.now }
    ensures within { result ≤ length bytes.now }
{
    bytes.iter().take_while(|b| **b == b' ').count()
}

// The place of the first byte from `at` on that is no blank. The part behind `at` is looked at alone: `skip` would walk over all that was read before.
fn skip_blanks(text: &[u8], at: usize) -> usize
    ensures { result ≡ at + prefix_len (λ b. b == 32) (drop at text.now) }
{
    match text.get(at..) {
        Some(rest) => at + blank_count(rest),
        None => at,
    }
}

// How many letters and digits stand in front: like the blanks above a chain of its own, since that is all that one over a test would be.
fn run_length(bytes: &[u8]) -> usize
    ensures value { result ≡ prefix_len wordly bytes.now }
    ensures within { result ≤ length bytes.now }
{
    bytes.iter().take_while(|b| is_wordly(**b)).count()
}

// The token that a run of letters and digits is.
fn word(run: &[u8]) -> Token<'_>
    ensures { mark_in result ≡ word_of run.now }
{
    match run {
        b"tt" => Token::True,
        b"ff" => Token::False,
        _ => Token::Name(run),
    }
}

// The token that one byte is, where it is any.
fn mark<'a>(b: u8, place: usize) -> Result<Token<'a>, Refusal>
    ensures { answer mark_in result ≡ mark_at b place }
{
    match b {
        b'!' => Ok(Token::Not),
        b'F' => Ok(Token::Eventually),
        b'G' => Ok(Token::Always),
        b'(' => Ok(Token::Open),
        b'&' => Ok(Token::And),
        b'|' => Ok(Token::Or),
        b')' => Ok(Token::Close),
        _ => Err(Refusal::new(Cause::UnexpectedMark, Layer::Rule, place)),
    }
}

impl<'a> Lexer<'a> {
    pub fn new(text: &'a [u8]) -> Lexer<'a>
        ensures text { text_of result ≡ text.now }
        ensures at { result.at ≡ 0 }
    {
        Lexer { text, at: 0 }
    }

    // The next mark; at the end of the text that is `End`, as often as it is asked for.
    pub fn next(&mut self) -> Result<Lexeme<'a>, Refusal>
        ensures outcome { answer (lexed self.new) result ≡ lex (length (text_of self.old)) (remaining self.old) }
        ensures same { text_of self.new ≡ text_of self.old }
    {
        let text = self.text;
        let place = skip_blanks(text, self.at);
        let Some(first) = text.get(place) else {
            self.at = place;
            return Ok(Lexeme {
                token: Token::End,
                place: text.len(),
            });
        };
        if is_lower(*first) {
            let end = place + run_length(&text[place..]);
            self.at = end;
            return Ok(Lexeme {
                token: word(&text[place..end]),
                place,
            });
        }
        self.at = place + 1;
        let token = mark(*first, place)?;
        Ok(Lexeme { token, place })
    }
}
