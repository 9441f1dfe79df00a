//! Keys of byte strings, and the digests that they come from.

#![tactic(auto)]

ghost use Rattle.keys.specs.Detects.{SingleBytesDetected, KeysUncut, TallyFits};
ghost use Rattle.std.specs.Prelude.{◌≡◌, Decides};
ghost use Rattle.keys.specs.declared.key.Key.{Key};
ghost use Rattle.keys.specs.Keys.{same_key, KeysRoundTrip};
ghost use Rattle.keys.specs.Texts.{KeyTextsRoundTrip};

pub mod digest;
pub mod fnv1a;
pub mod key;
pub mod tally;

pub use self::digest::{Digest, VALUE_ROOM, key_of};
pub use self::fnv1a::Fnv1a;
pub use self::key::{Key, NoKey, WrongSize};
pub use self::tally::Tally;

/// Carries the theorem that a key reads back from its bytes, and that no other bytes read as it.
pub fn keys_round_trip()
    ensures { KeysRoundTrip }
{}

/// Carries the theorem that keys read back from their texts, and that no other texts read as them.
#[tactic(auto, using(crate::proofs::Texts::back, crate::proofs::Texts::only))]
pub fn key_texts_round_trip()
    ensures { KeyTextsRoundTrip }
{}

/// Carries the theorem that `==` of keys is the test of their words and counts, and tells whether two keys are one.
pub fn keys_told_apart()
    ensures value { (j k : Key) → ⟦<Key as PartialEq>⟧.eq j k ≡ same_key j k }
    ensures equal { (j k : Key) → Decides (⟦<Key as PartialEq>⟧.eq j k) (j ≡ k) }
{}

/// Carries the theorem that one damaged byte always changes the digest, under FNV-1a and under Tally.
pub fn single_bytes_detected()
    ensures { SingleBytesDetected }
{}

/// Carries the theorem that Tally's sums stay far below 64 bits.
pub fn tally_fits()
    ensures { TallyFits }
{}

/// Carries the theorem that a key under FNV-1a or Tally has exactly the digest's words and the byte count.
pub fn keys_uncut()
    ensures { KeysUncut }
{}
