//! The table of slots: reading and writing one, and the lowest slot of a key.

ghost use Rattle.std.specs.Prelude.{◌≡◌, ◌+◌, ◌*◌, ◌≤◌, false, length};
ghost use Rattle.std.specs.Option.{option_map, option_map_or};
ghost use Rattle.keys.specs.Digests.{value_room};
ghost use Rattle.stores.specs.Numbers.{padded};
ghost use Rattle.stores.specs.Values.{value_bytes};
ghost use Rattle.slots.specs.Table.{slot_size, slot_count, slot_at, slot_length, slot_bytes, with_slot, read_slot, pair_key, pair_value, pair_seen, is_taken, is_damaged, slot_has, lowest_slot};

use keys::{Key, VALUE_ROOM};
use numbers::{read_number, write_number};
use stores::{Value, blank};

const LENGTH_AT: usize = 1 + Key::SIZE;

const VALUE_AT: usize = LENGTH_AT + 4;

/// The size of a slot: a flag, a key, a length in four bytes, the room of a value.
pub const SLOT: usize = VALUE_AT + VALUE_ROOM;

/// The most slots of a table.
const MOST: usize = 30;

/// How many slots so many bytes have.
pub(crate) fn slot_count(bytes: usize) -> usize
    ensures { result ≡ slot_count bytes }
{
    (bytes / SLOT).min(MOST)
}

/// A slot, borrowed from the bytes of its table.
#[derive(Clone, Copy)]
pub(crate) struct Slot<'a> {
    bytes: &'a [u8],
    ghost whole: { length bytes.now ≡ slot_size },
}

impl<'a> Slot<'a> {
    /// The slot of that number; absent behind the last.
    pub(crate) fn at(bytes: &'a [u8], i: usize) -> Option<Slot<'a>>
        ensures { option_map (λ s. s.bytes.now) result ≡ slot_at i bytes.now }
    {
        if i >= slot_count(bytes.len()) {
            return None;
        }
        Some(Slot {
            bytes: &bytes[i * SLOT..i * SLOT + SLOT],
        })
    }

    /// The length that the slot names.
    fn length(&self) -> u64
        ensures { result ≡ slot_length self.now.bytes.now }
    {
        read_number(&self.bytes[LENGTH_AT..VALUE_AT]).unwrap()
    }

    /// Whether the slot is taken.
    fn is_taken(&self) -> bool
        ensures { result ≡ is_taken self.now.bytes.now }
    {
        self.bytes[0] == 1 && self.length() <= VALUE_ROOM as u64
    }

    /// Whether the slot is empty though its flag is not 0.
    pub(crate) fn is_damaged(&self) -> bool
        ensures { result ≡ is_damaged self.now.bytes.now }
    {
        self.bytes[0] != 0 && !self.is_taken()
    }

    /// The key of the pair in the slot; absent where it is empty.
    pub(crate) fn key(&self) -> Option<Key>
        ensures { result ≡ option_map pair_key (read_slot self.now.bytes.now) }
    {
        if !self.is_taken() {
            return None;
        }
        Key::read(&self.bytes[1..LENGTH_AT])
    }

    /// The value of the pair in the slot, which is at the front of its room; absent where it is empty.
    #[tactic(auto, using(crate::specs::Pairs::taken_value))]
    pub(crate) fn value(&self) -> Option<&'a [u8]>
        ensures { option_map (λ x. x.now) result ≡ option_map pair_value (read_slot self.now.bytes.now) }
    {
        if !self.is_taken() {
            return None;
        }
        let size = self.length() as usize;
        Some(&self.bytes[VALUE_AT..VALUE_AT + size])
    }

    /// The pair in the slot; absent where it is empty.
    pub(crate) fn pair(&self) -> Option<(Key, &'a [u8])>
        ensures { option_map pair_seen result ≡ read_slot self.now.bytes.now }
    {
        Some((self.key()?, self.value()?))
    }

    /// Whether the slot has a pair of a key.
    fn has(&self, key: &Key) -> bool
        ensures { result ≡ slot_has key.now self.now.bytes.now }
    {
        self.key().is_some_and(|own| own == *key)
    }
}

/// Whether the slot of that number is there and has a pair of a key.
fn slot_has(bytes: &[u8], i: usize, key: &Key) -> bool
    ensures { result ≡ option_map_or (slot_has key.now) (slot_at i bytes.now) false }
{
    Slot::at(bytes, i).is_some_and(|slot| slot.has(key))
}

/// The lowest slot that has a pair of a key.
pub(crate) fn lowest_slot(bytes: &[u8], key: &Key) -> Option<usize>
    ensures { result ≡ lowest_slot key.now bytes.now }
{
    (0..slot_count(bytes.len())).find(|i| slot_has(bytes, *i, key))
}

/// Fills the room of a value with one, and zeros behind it.
#[tactic(auto, unfolding(stores::specs::Numbers::padded))]
pub(crate) fn fill(room: &mut [u8], value: &[u8])
    requires room { length room.old ≡ value_room }
    requires short { length value.now ≤ value_room }
    ensures { room.new ≡ padded value.now }
{
    let (front, rest) = room.split_at_mut(value.len());
    front.copy_from_slice(value);
    blank(rest);
}

/// Writes a pair into a slot, zeros behind its value.
fn fill_slot(slot: &mut [u8], key: &Key, value: &Value<'_>)
    requires { length slot.old ≡ slot_size }
    ensures { slot.new ≡ slot_bytes key.now (value_bytes value.now) }
{
    let (flag, rest) = slot.split_at_mut(1);
    let (name, rest) = rest.split_at_mut(Key::SIZE);
    let (size, room) = rest.split_at_mut(4);
    flag[0] = 1;
    name.copy_from_slice(&key.to_bytes());
    write_number(size, value.as_bytes().len() as u64);
    fill(room, value.as_bytes());
}

/// Overwrites a slot of a table with a pair.
pub(crate) fn write_slot(bytes: &mut [u8], i: usize, key: &Key, value: &Value<'_>)
    requires { i * slot_size + slot_size ≤ length bytes.old }
    ensures { bytes.new ≡ with_slot i key.now (value_bytes value.now) bytes.old }
{
    fill_slot(&mut bytes[i * SLOT..i * SLOT + SLOT], key, value);
}
