//! Digests, and the keys that they give.

ghost use Rattle.std.specs.Prelude.{IfSome, length, ◌≡◌, ℕ, ◌≤◌, List};
ghost use Rattle.keys.specs.Digests.{value_room, within, key_of};

use crate::key::Key;

/// The most bytes of a value in a store; every digest takes so many.
pub const VALUE_ROOM: usize = 2048;

/// A digest: a function from byte strings up to a longest one to four words of 64 bits.
pub trait Digest {
    /// The most bytes that the digest takes.
    const LONGEST: u32;

    ghost LONGEST: { ℕ };

    // the digest of each byte string, four words as a function of the type
    ghost words: { List ℕ → List ℕ };

    /// The digest of a byte string; absent exactly for one that is longer than the longest.
    fn digest(bytes: &[u8]) -> Option<[u64; 4]>
        ensures { result ≡ within LONGEST bytes.now (words bytes.now) };

    // each value of a store has a digest
    ghost long: { value_room ≤ LONGEST };
}

/// The length of a byte string; absent where it is over the most.
pub(crate) fn length_within(bytes: &[u8], most: u32) -> Option<u32>
    ensures value { result ≡ within most bytes.now (length bytes.now) }
    ensures short { IfSome result (λ _. length bytes.now ≤ most) }
{
    u32::try_from(bytes.len())
        .ok()
        .filter(|length| *length <= most)
}

/// The key of a byte string: its digest and its length; absent where the digest is.
pub fn key_of<D: Digest>(bytes: &[u8]) -> Option<Key>
    ensures { result ≡ key_of D.Digest.LONGEST D.Digest.words bytes.now }
{
    let count = length_within(bytes, D::LONGEST)?;
    let words = D::digest(bytes)?;
    Some(Key::new(words, count))
}
