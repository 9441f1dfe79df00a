//! The entries that lie one after another in some bytes.

ghost use Rattle.std.specs.Prelude.{◌≡◌, length};
ghost use Rattle.std.specs.Iterator.{at_most};
ghost use Rattle.entries.specs.Scans.{left_of, PassesEntry};

use crate::entry::Entry;
use crate::entry::reading::read_entry;

/// The entries from the front of some bytes on, up to the first place where no whole one begins.
#[derive(Debug, Drop)]
pub struct Entries<'a> {
    // the bytes that are left
    rest: &'a [u8],
}

impl<'a> Entries<'a> {
    /// The entries of these bytes.
    pub fn new(bytes: &'a [u8]) -> Entries<'a>
        ensures { left_of result ≡ bytes.now }
    {
        Entries { rest: bytes }
    }
}

impl<'a> Iterator for Entries<'a> {
    type Item = Entry<'a>;

    ghost next_gives = { PassesEntry };

    ghost remaining = { λ s. at_most (length (left_of s)) };

    fn next(&mut self) -> Option<Entry<'a>> {
        let entry = read_entry(self.rest)?;
        self.rest = entry.rest();
        Some(entry)
    }
}
