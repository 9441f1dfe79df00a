//! Lists: tests of each element, and a few things in room of fixed size.

#![tactic(auto)]

ghost use Rattle.std.specs.Prelude.{◌≡◌};
ghost use Rattle.lists.specs.Each.{all_zero};

pub mod few;

pub use self::few::Few;

/// Whether each byte is zero.
pub fn are_zeros(bytes: &[u8]) -> bool
    ensures { result ≡ all_zero bytes.now }
{
    bytes.iter().all(|b| *b == 0)
}
