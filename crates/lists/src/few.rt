//! A few things in room of fixed size.

ghost use Rattle.std.specs.Prelude.{◌≡◌, ◌≤◌, ⊤};

use std::alloc::AllocError;

pub mod comparing;
pub mod filling;

// the library's `ArrayVec` is no `Copy`, and an action is
/// Up to `N` things, in order, in a value that owns its room; what lies behind them is not looked at.
pub struct Few<T, const N: usize> {
    items: [T; N],
    len: usize,
    ghost short: { len ≤ N },
}

// kept: `Clone` cannot be derived over a ghost field where a parameter is a type
impl<T: Copy, const N: usize> Clone for Few<T, N> {
    ghost is_clone = { λ x y. y ≡ x };

    ghost is_infallible = { λ _. ⊤ };

    fn clone(&self) -> Result<Few<T, N>, AllocError> {
        Ok(*self)
    }
}

impl<T: Copy, const N: usize> Copy for Few<T, N> {}
