//! The digest Tally: sums that are easy to check by hand, and easy to make collide.

ghost use Rattle.std.specs.Prelude.{[], ◌∷◌};
ghost use Rattle.keys.specs.Digests.{tally_sum, tally_weighted};
ghost use Rattle.std.proofs.Common.{rules};

use crate::digest::{Digest, length_within};

/// The sum of the bytes, and the sum of each times its place from 1; the other words are 0.
#[derive(Clone, Copy)]
pub struct Tally;

impl Digest for Tally {
    const LONGEST: u32 = 65536;

    ghost LONGEST = { 65536 };

    ghost words = { λ bs. tally_sum bs ∷ tally_weighted bs ∷ 0 ∷ 0 ∷ [] };

    ghost long = { Prim.search rules };

    fn digest(bytes: &[u8]) -> Option<[u64; 4]> {
        length_within(bytes, Self::LONGEST)?;
        let mut sum: u64 = 0;
        let mut weighted: u64 = 0;
        for (i, b) in bytes.iter().enumerate() {
            sum += u64::from(*b);
            weighted += u64::from(*b) * (i as u64 + 1);
        }
        Some([sum, weighted, 0, 0])
    }
}
