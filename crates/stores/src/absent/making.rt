//! Making an absent store, and what it answers.

ghost use Rattle.std.specs.Prelude.{◌≡◌, if◌then◌else◌, MatchResult};
ghost use Rattle.stores.specs.Absents.{absent_model, absent_mark};
ghost use Rattle.stores.specs.Numbers.{is_free_mark, making_answer};
ghost use Rattle.std.proofs.Common.{rules};

use super::Absent;
use crate::answers::{Cause, Declined, Fault, FindResult, PutResult, StoreError};
use crate::mark::Mark;
use crate::store::{Store, check_buffer, missing};
use crate::value::Value;
use keys::Key;

impl Absent {
    /// The absent store of that mark; declined for the marks 0 and 255, and the mark comes back.
    pub fn new(mark: u8) -> Result<Absent, Declined<u8>>
        ensures answer { making_answer result ≡ (if is_free_mark mark then 0 else 10) }
        ensures cases { MatchResult result (λ s. absent_mark s ≡ mark) (λ d. d.given ≡ mark) }
    {
        let mark = Mark::try_from(mark)?;
        Ok(Absent { mark })
    }
}

impl Store for Absent {
    ghost model = { absent_model };

    ghost held = { Prim.search rules };

    ghost finding = { Prim.search rules };

    ghost putting = { Prim.search rules };

    fn find(&mut self, _key: &Key, buffer: &mut [u8]) -> FindResult {
        check_buffer(buffer)?;
        missing(buffer)
    }

    fn put(&mut self, _key: &Key, value: &[u8]) -> PutResult {
        Value::try_from(value)?;
        let fault = Fault {
            mark: self.mark,
            cause: Cause::Absent,
        };
        Err(StoreError::Failed(fault))
    }
}
