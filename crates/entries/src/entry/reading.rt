//! Reading entries, and what an entry holds.

ghost use Rattle.std.specs.Prelude.{◌≡◌, ◌≤◌, length, drop, Decides, nat_le, is_ok, slice_index};
ghost use Rattle.std.specs.Option.{option_map};
ghost use Rattle.keys.specs.Digests.{value_room};
ghost use Rattle.lists.specs.Each.{all_zero};
ghost use Rattle.entries.specs.Blocks.{filled};
ghost use Rattle.entries.specs.Entries.{read_entry, bodies_of, entry_of, value_of};

use super::{Entry, TooShort};
use crate::blocks::{BLOCK, BLOCK_RECORD, block_count, split_blocks};
use crate::heads::split_head;
use keys::Key;
use lists::are_zeros;

/// The entry at the front of some bytes, which it borrows; absent where no whole entry stands there.
pub fn read_entry(bytes: &[u8]) -> Option<Entry<'_>>
    ensures { option_map entry_of result ≡ read_entry bytes.now }
{
    let (head, behind) = split_head(bytes)?;
    let (blocks, rest) = split_blocks(block_count(head.size), behind)?;
    let entry = Entry { head, blocks, rest };
    entry.is_padded().then_some(entry)
}

impl<'a> Entry<'a> {
    /// The key of the entry.
    pub fn key(&self) -> Key
        ensures { result ≡ (entry_of self.now).part.key }
    {
        self.head.key
    }

    /// How many bytes the value has.
    pub fn value_len(&self) -> usize
        ensures value { result ≡ length (entry_of self.now).part.value }
        ensures short { result ≤ value_room }
    {
        self.head.size
    }

    /// The bytes behind the entry.
    pub fn rest(&self) -> &'a [u8]
        ensures { result.now ≡ (entry_of self.now).rest }
    {
        self.rest
    }

    /// Whether only zeros lie behind the value in its last block.
    fn is_padded(&self) -> bool
        ensures { result ≡ all_zero (drop self.now.head.size (bodies_of self.now)) }
    {
        let padding = block_count(self.head.size) * BLOCK - self.head.size;
        are_zeros(&self.blocks[self.blocks.len() - padding..])
    }

    /// The byte of the value at a place; 0 behind its end.
    fn byte(&self, i: usize) -> u8
        ensures { result ≡ slice_index (value_of self.now) i }
    {
        if i >= self.value_len() {
            return 0;
        }
        // each block record begins with its kind
        self.blocks[i / BLOCK * BLOCK_RECORD + (1 + i % BLOCK)]
    }

    /// Fills a slice with the value and zeros behind it; a slice that is too short for the value is left as it is.
    pub fn fill_value(&self, into: &mut [u8]) -> Result<(), TooShort>
        ensures answer { is_ok result ≡ nat_le (length (entry_of self.now).part.value) (length into.old) }
        ensures after { into.new ≡ filled (entry_of self.now).part.value into.old }
    {
        if into.len() < self.value_len() {
            return Err(TooShort);
        }
        for (i, b) in into.iter_mut().enumerate() {
            *b = self.byte(i);
        }
        Ok(())
    }

    /// Whether the value is these bytes.
    pub fn has_value(&self, value: &[u8]) -> bool
        ensures { Decides result ((entry_of self.now).part.value ≡ value.now) }
    {
        value.len() == self.value_len() && value.iter().enumerate().all(|(i, b)| *b == self.byte(i))
    }
}
