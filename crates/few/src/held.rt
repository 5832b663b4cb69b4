// At most N items. What stands in the places behind them means nothing. (The kit's `arrayvec` has such a list, which is not `Copy`, as names and
// rules are.)
ghost use Rattle.std.specs.Prelude.{◌≡◌, ◌≤◌, ⊤};

use std::alloc::AllocError;

pub struct Few<T, const N: usize> {
    pub(crate) places: [T; N],
    pub(crate) count: usize,
    ghost few: { count ≤ N },
}

// By hand, since no derive over a type parameter takes a ghost field.
impl<T: Copy, const N: usize> Clone for Few<T, N> {
    ghost is_clone = { λ list copy. copy ≡ list };

    ghost is_infallible = { λ _. ⊤ };

    fn clone(&self) -> Result<Few<T, N>, AllocError> {
        Ok(*self)
    }
}

impl<T: Copy, const N: usize> Copy for Few<T, N> {}
