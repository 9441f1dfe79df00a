//! A key: what names a byte string in a cache.

ghost use Rattle.std.specs.Prelude.{Some, codes, ◌≡◌, ◌^◌, ◌<◌, ℕ, length, slice_index};

use std::error::Error;
use std::fmt;

pub mod comparing;
pub mod printing;
pub mod texts;

pub use self::printing::NoKey;

/// The four words of a digest, and how many bytes were digested.
#[derive(Clone, Copy, Debug)]
pub struct Key {
    words: [u64; 4],
    count: u32,
    ghost four: { length words ≡ 4 },
    ghost fit: { (i : ℕ) → slice_index words i < 2 ^ 64 },
    ghost count_fits: { count < 2 ^ 32 },
}

/// A slice of another size than a key's.
#[derive(Clone, Copy, Debug, PartialEq, Eq)]
pub struct WrongSize;

impl fmt::Display for WrongSize {
    ghost output = { λ _. Some (codes "a key has 36 bytes") };

    fn fmt<W: fmt::Write>(&self, f: &mut fmt::Formatter<W>) -> fmt::Result {
        f.write_str("a key has 36 bytes")
    }
}

impl Error for WrongSize {}
