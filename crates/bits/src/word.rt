// Machine words, by the numbers that they are.
ghost use Rattle.std.specs.Prelude.{◌≡◌, ℕ, ◌+◌, ◌^◌, ◌<◌};

// An unsigned word. Its bits are those of its number, and it has none from its width on.
pub trait Word: Copy {
    ghost number: { Self → ℕ };

    ghost width: { ℕ };

    // The same number in 64 bits.
    fn widened(self) -> u64
        ensures { result ≡ number self };

    // A word that has only bits below k, with bit k put in.
    fn with(self, k: usize) -> Self
        ensures { k < width → number self < 2 ^ k → number result ≡ number self + 2 ^ k };
}

// One impl for each width: a macro may not write them.
impl Word for u8 {
    ghost number = { λ w. w };

    ghost width = { 8 };

    fn widened(self) -> u64 {
        u64::from(self) // of 8 bits
    }

    fn with(self, k: usize) -> u8 {
        if k < 8 { self | (1 << k) } else { self }
    }
}

impl Word for u32 {
    ghost number = { λ w. w };

    ghost width = { 32 };

    fn widened(self) -> u64 {
        u64::from(self)
    }

    fn with(self, k: usize) -> u32 {
        if k < 32 { self | (1 << k) } else { self }
    }
}

impl Word for u64 {
    ghost number = { λ w. w };

    ghost width = { 64 };

    fn widened(self) -> u64 {
        self
    }

    fn with(self, k: usize) -> u64 {
        if k < 64 { self | (1 << k) } else { self }
    }
}
