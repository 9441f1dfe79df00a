//! An entry that is read and still lies in the bytes that it was read from.

ghost use Rattle.std.specs.Prelude.{◌≡◌, ◌≤◌, length, Some, codes};
ghost use Rattle.keys.specs.Digests.{value_room};
ghost use Rattle.entries.specs.Blocks.{block_count, blocks_size};

use keys::Key;
use std::error::Error;
use std::fmt;

pub mod reading;

/// What the head of an entry says.
#[derive(Clone, Copy, Debug)]
pub(crate) struct EntryHead {
    /// The key of the entry.
    pub(crate) key: Key,
    /// The length of the value.
    pub(crate) size: usize,
    ghost short: { size ≤ value_room },
}

/// A log entry, borrowed from the bytes that hold it.
#[derive(Clone, Copy, Debug)]
pub struct Entry<'a> {
    head: EntryHead,
    // the block records of the value, and nothing else
    blocks: &'a [u8],
    // the bytes behind the last block
    rest: &'a [u8],
    ghost whole: { length blocks.now ≡ blocks_size (block_count head.size) },
}

/// A buffer has no room for the value of an entry.
#[derive(Clone, Copy, Debug, PartialEq, Eq)]
pub struct TooShort;

impl fmt::Display for TooShort {
    ghost output = { λ _. Some (codes "the buffer is too short for the value") };

    fn fmt<W: fmt::Write>(&self, f: &mut fmt::Formatter<W>) -> fmt::Result {
        write!(f, "the buffer is too short for the value")
    }
}

impl Error for TooShort {}
