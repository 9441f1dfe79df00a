//! Making a store of slots, and what it does.

ghost use Rattle.std.specs.Prelude.{◌≡◌, ◌<◌, ◌≤◌, length, if◌then◌else◌, vec_len, MatchResult, nat_le};
ghost use Rattle.stores.specs.Numbers.{making_answer};
ghost use Rattle.slots.specs.Table.{slot_size, slot_count};
ghost use Rattle.slots.specs.Storing.{bytes_of, slots_model, put_place, next_cursor, Reopened, SamePairs};
ghost use Rattle.slots.specs.Laws.{held_means, find_means, put_means};

use super::Slots;
use crate::table::{SLOT, fill, lowest_slot, slot_count, write_slot};
use keys::Key;
use stores::{Answer, Declined, FindResult, PutResult, Store, Value, check_buffer, missing};

impl Slots {
    /// The store over these bytes, as they are; declined where they have no slot, and they come back.
    pub fn new(bytes: Vec<u8>) -> Result<Slots, Declined<Vec<u8>>>
        ensures answer { making_answer result ≡ (if nat_le slot_size (vec_len bytes) then 0 else 10) }
        ensures cases { MatchResult result (λ s. (s.bytes ≡ bytes) × (s.cursor ≡ 0)) (λ d. d.given ≡ bytes) }
    {
        if bytes.len() < SLOT {
            return Err(Declined { given: bytes });
        }
        Ok(Slots { bytes, cursor: 0 })
    }

    // kept: as a log has it; a trait for one line of two types would be longer than both
    /// The bytes of the store, to be kept in a file.
    pub fn into_bytes(self) -> Vec<u8>
        ensures { result ≡ self.bytes }
    {
        let Slots { bytes, cursor: _ } = self;
        bytes
    }

    /// The store closed and opened again from its bytes, as by a program that saves a cache file and reads it back.
    pub fn reopened(self) -> Result<Slots, Declined<Vec<u8>>>
        ensures { MatchResult result (λ s. (s.bytes ≡ self.bytes) × SamePairs self s × (s.cursor ≡ 0)) (λ _. ⊥) }
    {
        Slots::new(self.into_bytes())
    }

    /// The slot to overwrite for a key; the cursor moves where it is the one under it.
    fn choose(&mut self, key: &Key) -> usize
        ensures place { result ≡ put_place key.now self.old }
        ensures within { result < slot_count (length (bytes_of self.old)) }
        ensures bytes { self.new.bytes ≡ self.old.bytes }
        ensures cursor { self.new.cursor ≡ next_cursor key.now self.old }
    {
        if let Some(i) = lowest_slot(self.bytes.as_slice(), key) {
            return i;
        }
        let place = self.cursor;
        let next = place + 1;
        self.cursor = if next == slot_count(self.bytes.len()) {
            0
        } else {
            next
        };
        place
    }
}

impl Store for Slots {
    ghost model = { slots_model };

    ghost held = { held_means };

    ghost finding = { find_means };

    ghost putting = { put_means };

    fn find(&mut self, key: &Key, buffer: &mut [u8]) -> FindResult {
        check_buffer(buffer)?;
        let Some(value) = self.value_of(key) else {
            return missing(buffer);
        };
        fill(buffer, value);
        Ok(Answer {
            value: Some(value.len()),
            first: None,
        })
    }

    fn put(&mut self, key: &Key, value: &[u8]) -> PutResult {
        let value = Value::try_from(value)?;
        let place = self.choose(key);
        write_slot(self.bytes.as_mut_slice(), place, key, &value);
        Ok(Answer {
            value: (),
            first: None,
        })
    }
}

/// Carries the theorem that a store made from the bytes of another holds the same pairs.
pub fn slots_reopen()
    ensures { Reopened }
{}
