//! Walking over the entries of a log, and appending one.

ghost use Rattle.std.specs.Prelude.{◌≡◌, ◌≤◌, length, if◌then◌else◌, is_ok, nat_le};
ghost use Rattle.std.specs.Option.{option_map};
ghost use Rattle.stores.specs.Values.{value_bytes};
ghost use Rattle.entries.specs.Blocks.{entry_size};
ghost use Rattle.entries.specs.Entries.{value_of};
ghost use Rattle.log_store.specs.Contents.{log_entries, log_rest, log_end, last_value, is_value, has_room, with_entry_first, appended, LogsRoundTrip, AppendsOne};

use entries::{Entries, Entry, write_entry};
use keys::Key;
use stores::Value;

/// What a walk over the entries of a log met.
#[derive(Clone, Copy)]
pub(crate) struct Met<'a> {
    /// The last entry of the key.
    pub(crate) last: Option<Entry<'a>>,
    /// The first place where no whole entry begins.
    pub(crate) end: usize,
}

/// An entry does not fit behind those of a log.
#[derive(Clone, Copy, Debug, PartialEq, Eq)]
pub(crate) struct NoRoom;

/// Walks over the entries of a log, and keeps the last of a key.
pub(crate) fn walk<'a>(bytes: &'a [u8], key: &Key) -> Met<'a>
    ensures last { option_map value_of result.last ≡ last_value key.now (log_entries bytes.now) }
    ensures end { result.end ≡ log_end bytes.now }
{
    let mut rest = bytes;
    let mut last = None;
    for entry in Entries::new(bytes) {
        if entry.key() == *key {
            last = Some(entry);
        }
        rest = entry.rest();
    }
    Met {
        last,
        end: bytes.len() - rest.len(),
    }
}

impl Met<'_> {
    /// Whether the last entry of the key has a value.
    pub(crate) fn last_is(&self, value: &[u8]) -> bool
        ensures { result ≡ is_value value.now (option_map value_of self.now.last) }
    {
        self.last.is_some_and(|entry| entry.has_value(value))
    }
}

/// Writes an entry at the front of some bytes and a zero behind it; refused where it does not fit, and nothing is written.
fn put_first(rest: &mut [u8], key: &Key, value: &Value<'_>) -> Result<(), NoRoom>
    ensures answer { is_ok result ≡ nat_le (entry_size (length (value_bytes value.now))) (length rest.old) }
    ensures after { rest.new ≡ (if is_ok result then with_entry_first key.now (value_bytes value.now) rest.old else rest.old) }
{
    let size = write_entry(key, value.as_bytes(), rest).ok_or(NoRoom)?;
    if size < rest.len() {
        rest[size] = 0;
    }
    Ok(())
}

/// Appends an entry at the end of a log; refused where it does not fit, and nothing is written.
pub(crate) fn append(
    bytes: &mut [u8],
    end: usize,
    key: &Key,
    value: &Value<'_>,
) -> Result<(), NoRoom>
    requires { end ≡ log_end bytes.old }
    ensures answer { is_ok result ≡ has_room (value_bytes value.now) bytes.old }
    ensures after { bytes.new ≡ (if is_ok result then appended key.now (value_bytes value.now) bytes.old else bytes.old) }
{
    put_first(&mut bytes[end..], key, value)
}

/// Carries the theorem that entries written one after another read back, and that no other bytes read as them.
pub fn logs_round_trip()
    ensures { LogsRoundTrip }
{}

/// Carries the theorem that an appended entry becomes the last one, and that the others stay.
pub fn appends_one()
    ensures { AppendsOne }
{}
