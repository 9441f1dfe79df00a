//! The digest FNV-1a of 64 bits.

ghost use Rattle.std.specs.Prelude.{[], ◌∷◌};
ghost use Rattle.keys.specs.Digests.{fnv1a};
ghost use Rattle.std.proofs.Common.{rules};

use crate::digest::{Digest, length_within};

/// FNV-1a in the first word; the other words are 0.
#[derive(Clone, Copy)]
pub struct Fnv1a;

impl Digest for Fnv1a {
    const LONGEST: u32 = 65536;

    ghost LONGEST = { 65536 };

    ghost words = { λ bs. fnv1a bs ∷ 0 ∷ 0 ∷ 0 ∷ [] };

    ghost long = { Prim.search rules };

    fn digest(bytes: &[u8]) -> Option<[u64; 4]> {
        length_within(bytes, Self::LONGEST)?;
        let mut hash: u64 = 0xcbf29ce484222325;
        for b in bytes {
            hash = (hash ^ u64::from(*b)).wrapping_mul(0x100000001b3);
        }
        Some([hash, 0, 0, 0])
    }
}
