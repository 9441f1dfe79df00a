//! Making marks.

ghost use Rattle.std.specs.Prelude.{◌≡◌};
ghost use Rattle.stores.specs.Numbers.{mark_number, MarkOf};

use super::Mark;
use crate::answers::Declined;

impl Mark {
    /// The mark of the verifier of artifacts, which no other store or layer can be given.
    pub fn verifier() -> Mark
        ensures { mark_number result ≡ 255 }
    {
        Mark { number: 255 }
    }
}

/// The mark of that number; declined for 0, which no mark has, and for 255, which is the verifier's own.
impl TryFrom<u8> for Mark {
    type Error = Declined<u8>;

    ghost try_from_gives = { MarkOf };

    fn try_from(number: u8) -> Result<Mark, Declined<u8>> {
        if number == 0 || number == 255 {
            return Err(Declined { given: number });
        }
        Ok(Mark { number })
    }
}

/// The number of the mark.
impl From<Mark> for u8 {
    ghost from_gives = { λ m n. n ≡ mark_number m };

    fn from(mark: Mark) -> u8 {
        mark.number
    }
}
