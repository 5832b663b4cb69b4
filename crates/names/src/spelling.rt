// What a name is made of.
ghost use Rattle.std.specs.Prelude.{◌≡◌};
ghost use Rattle.std.specs.Str.{bytes_eq};
ghost use Rattle.names.specs.Names.{lower, wordly, wordly_throughout, is_word_text, constant, well_formed};

pub fn is_lower(b: u8) -> bool
    ensures { result ≡ lower b }
{
    b.is_ascii_lowercase()
}

// Whether a name may go on with this byte.
pub fn is_wordly(b: u8) -> bool
    ensures { result ≡ wordly b }
{
    is_lower(b) || b.is_ascii_digit()
}

// Whether two names are spelled alike.
pub fn is_same(a: &[u8], b: &[u8]) -> bool
    ensures { result ≡ bytes_eq a.now b.now }
{
    a == b
}

fn all_wordly(word: &[u8]) -> bool
    ensures { result ≡ wordly_throughout word.now }
{
    word.iter().all(|b| is_wordly(*b))
}

fn is_constant(word: &[u8]) -> bool
    ensures { result ≡ constant word.now }
{
    matches!(word, b"tt" | b"ff")
}

fn is_word(word: &[u8]) -> bool
    ensures { result ≡ is_word_text word.now }
{
    word.first().is_some_and(|b| is_lower(*b)) && all_wordly(word)
}

// Whether this word may be declared: 1 to 8 letters and digits, a letter first, and no constant.
pub fn is_well_formed(word: &[u8]) -> bool
    ensures { result ≡ well_formed word.now }
{
    word.len() <= 8 && is_word(word) && !is_constant(word)
}
