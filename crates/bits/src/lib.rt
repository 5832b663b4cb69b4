// The bits of machine words.
#![tactic(auto)]

mod word;

ghost use Rattle.std.specs.Prelude.{◌≡◌, ◌+◌, ◌^◌, ◌<◌, if◌then◌else◌};
ghost use Rattle.ltl.specs.Words.{bit};

pub use word::Word;

// Whether bit k of a word is set. A word has no bit from its width on.
pub fn has_bit<W: Word>(word: W, k: usize) -> bool
    ensures { result ≡ bit k (W.number word) }
{
    let wide = word.widened();
    if k >= 64 {
        return false;
    }
    (wide >> k) % 2 == 1
}

// A word that has only bits below k, with bit k put in.
pub fn with_bit<W: Word>(word: W, k: usize, set: bool) -> W
    ensures { k < W.width → W.number word < 2 ^ k → W.number result ≡ W.number word + (if set then 2 ^ k else 0) }
{
    if set { word.with(k) } else { word }
}
