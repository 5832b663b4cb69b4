// The marks of a rule's text. A name is a part of the text itself.
#[derive(Clone, Copy, Debug, PartialEq, Eq)]
pub enum Token<'a> {
    True,
    False,
    Name(&'a [u8]),
    Not,
    Eventually,
    Always,
    Open,
    And,
    Or,
    Close,
    // the end of the text
    End,
}

// A mark and the place of its first byte.
#[derive(Clone, Copy, Debug, PartialEq, Eq)]
pub struct Lexeme<'a> {
    pub token: Token<'a>,
    pub place: usize,
}

// A text, read up to a place.
#[derive(Clone, Copy, Debug)]
pub struct Lexer<'a> {
    pub text: &'a [u8],
    pub at: usize,
}
