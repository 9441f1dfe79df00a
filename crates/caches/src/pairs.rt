//! Pairs as text.

ghost use Rattle.std.specs.Prelude.{◌≡◌, IfOk, string_bytes};
ghost use Rattle.caches.specs.Listings.{is_own_key, own_word, pair_text};

use keys::{Digest, Key, key_of};
use std::alloc::{AllocError, Global};

/// Whether a key is the key of a value under a digest.
fn is_own_key<D: Digest>(key: &Key, value: &[u8]) -> bool
    ensures { result ≡ is_own_key D.LONGEST D.words key.now value.now }
{
    key_of::<D>(value).is_some_and(|own| own == *key)
}

/// Whether the key of a pair is that of its value, in words.
fn own_word<D: Digest>(key: &Key, value: &[u8]) -> &'static str
    ensures { result.now ≡ own_word D.LONGEST D.words key.now value.now }
{
    if is_own_key::<D>(key, value) {
        "own-key"
    } else {
        "other-key"
    }
}

/// A pair as text: its key, its length, whether the key is that of the value.
pub(crate) fn pair_text<D: Digest>(
    heap: Global,
    key: &Key,
    value: &[u8],
) -> Result<String, AllocError>
    ensures { IfOk result (λ t. string_bytes t ≡ pair_text D.LONGEST D.words key.now value.now) }
{
    let size = value.len();
    let word = own_word::<D>(key, value);
    format!(in heap; "{key}  {size}  {word}")
}
