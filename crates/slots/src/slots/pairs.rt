//! Questions about the slots of a store, one by one.

ghost use Rattle.std.specs.Prelude.{◌≡◌, length};
ghost use Rattle.std.specs.Option.{option_map};
ghost use Rattle.slots.specs.Table.{slot_count, slot_at, pair_at, pair_key, pair_value, pair_seen, is_damaged_at};
ghost use Rattle.slots.specs.Storing.{bytes_of, value_found};

use super::Slots;
use crate::table::{Slot, lowest_slot, slot_count};
use keys::Key;

impl Slots {
    /// How many slots the table has.
    pub fn count(&self) -> usize
        ensures { result ≡ slot_count (length (bytes_of self.now)) }
    {
        slot_count(self.bytes.len())
    }

    /// The slot of that number; absent behind the last.
    fn slot(&self, i: usize) -> Option<Slot<'_>>
        ensures { option_map (λ s. s.bytes.now) result ≡ slot_at i (bytes_of self.now) }
    {
        Slot::at(self.bytes.as_slice(), i)
    }

    /// The pair in a slot; absent for an empty slot, and behind the last.
    pub fn pair_at(&self, i: usize) -> Option<(Key, &[u8])>
        ensures { option_map pair_seen result ≡ pair_at i (bytes_of self.now) }
    {
        self.slot(i)?.pair()
    }

    /// The key of the pair in a slot; absent for an empty slot, and behind the last.
    pub fn key_at(&self, i: usize) -> Option<Key>
        ensures { result ≡ option_map pair_key (pair_at i (bytes_of self.now)) }
    {
        self.slot(i)?.key()
    }

    /// The value of the pair in a slot; absent for an empty slot, and behind the last.
    pub fn value_at(&self, i: usize) -> Option<&[u8]>
        ensures { option_map (λ x. x.now) result ≡ option_map pair_value (pair_at i (bytes_of self.now)) }
    {
        self.slot(i)?.value()
    }

    /// Whether a slot is empty though its flag is not 0, as no store leaves it.
    pub fn is_damaged_at(&self, i: usize) -> bool
        ensures { result ≡ is_damaged_at i (bytes_of self.now) }
    {
        self.slot(i).is_some_and(|slot| slot.is_damaged())
    }

    /// The value in the lowest slot of a key.
    #[tactic(auto, using(crate::specs::Pairs::found_value))]
    pub(crate) fn value_of(&self, key: &Key) -> Option<&[u8]>
        ensures { option_map (λ x. x.now) result ≡ value_found key.now (bytes_of self.now) }
    {
        self.value_at(lowest_slot(self.bytes.as_slice(), key)?)
    }
}
