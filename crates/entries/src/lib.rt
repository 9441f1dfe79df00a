//! Log entries: a head record, then as many block records as the value fills.

#![tactic(auto)]

ghost use Rattle.entries.specs.Entries.{EntriesRoundTrip, EntrySizes};

pub mod blocks;
pub mod entry;
pub mod heads;
pub mod scan;
pub mod writing;

pub use self::blocks::{VALUE_ROOM, entry_size};
pub use self::entry::reading::read_entry;
pub use self::entry::{Entry, TooShort};
pub use self::scan::Entries;
pub use self::writing::write_entry;

/// Carries the theorem that an entry reads back as it was written, and that no other bytes read as it.
pub fn entries_round_trip()
    ensures { EntriesRoundTrip }
{}

/// Carries the theorem that an entry has the size that its value's length says.
pub fn entry_sizes()
    ensures { EntrySizes }
{}
