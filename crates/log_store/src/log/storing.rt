//! Making a log, and what it does.

ghost use Rattle.std.specs.Prelude.{◌≡◌, ◌&&◌, if◌then◌else◌, vec_len, MatchResult, nat_le};
ghost use Rattle.stores.specs.Numbers.{making_answer, is_free_mark};
ghost use Rattle.log_store.specs.Storing.{log_model, log_mark, log_most, SamePairs};
ghost use Rattle.log_store.specs.Laws.{held_means, find_means, put_means};

use super::Log;
use crate::walk::{append, walk};
use keys::Key;
use stores::{
    Answer, Cause, Declined, Fault, FindResult, Mark, PutResult, Store, StoreError, Value,
    check_buffer, missing,
};

/// The most bytes of a log.
pub const LOG_ROOM: usize = 65536;

impl Log {
    /// The store over these bytes, as they are; declined for the marks 0 and 255 and for more than 65,536 bytes, and
    /// the bytes come back.
    pub fn new(mark: u8, bytes: Vec<u8>) -> Result<Log, Declined<Vec<u8>>>
        ensures answer { making_answer result ≡ (if is_free_mark mark && nat_le (vec_len bytes) log_most then 0 else 10) }
        ensures cases { MatchResult result (λ s. (s.bytes ≡ bytes) × (log_mark s ≡ mark)) (λ d. d.given ≡ bytes) }
    {
        let Ok(mark) = Mark::try_from(mark) else {
            return Err(Declined { given: bytes });
        };
        if bytes.len() > LOG_ROOM {
            return Err(Declined { given: bytes });
        }
        Ok(Log { mark, bytes })
    }

    /// The bytes of the store, to be kept in a file.
    pub fn into_bytes(self) -> Vec<u8>
        ensures { result ≡ self.bytes }
    {
        let Log { mark: _, bytes } = self;
        bytes
    }

    /// The store closed and opened again from its bytes under a mark, as by a program that saves a cache file and reads
    /// it back.
    pub fn reopened(self, mark: u8) -> Result<Log, Declined<Vec<u8>>>
        ensures answer { making_answer result ≡ (if is_free_mark mark then 0 else 10) }
        ensures cases { MatchResult result (λ s. (s.bytes ≡ self.bytes) × SamePairs self s × (log_mark s ≡ mark)) (λ d. d.given ≡ self.bytes) }
    {
        Log::new(mark, self.into_bytes())
    }
}

impl Store for Log {
    ghost model = { log_model };

    ghost held = { held_means };

    ghost finding = { find_means };

    ghost putting = { put_means };

    fn find(&mut self, key: &Key, buffer: &mut [u8]) -> FindResult {
        check_buffer(buffer)?;
        let Some(entry) = walk(self.bytes.as_slice(), key).last else {
            return missing(buffer);
        };
        entry.fill_value(buffer).unwrap();
        Ok(Answer {
            value: Some(entry.value_len()),
            first: None,
        })
    }

    fn put(&mut self, key: &Key, value: &[u8]) -> PutResult {
        let value = Value::try_from(value)?;
        let kept = Answer {
            value: (),
            first: None,
        };
        let met = walk(self.bytes.as_slice(), key);
        if met.last_is(value.as_bytes()) {
            return Ok(kept);
        }
        let end = met.end;
        let no_room = StoreError::Failed(Fault {
            mark: self.mark,
            cause: Cause::NoRoom,
        });
        append(self.bytes.as_mut_slice(), end, key, &value).map_err(|_| no_room)?;
        Ok(kept)
    }
}
