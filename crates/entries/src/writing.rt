//! Writing entries.

ghost use Rattle.std.specs.Prelude.{◌≡◌};
ghost use Rattle.entries.specs.Entries.{entry_front, with_entry};

use crate::blocks::{BLOCK, block_body, entry_size};
use crate::heads::head_body;
use keys::Key;
use records::{Kind, put_record};

/// Writes an entry at the front of a buffer, and answers its size; absent, and nothing is written, where the value
/// is too long or the entry does not fit.
pub fn write_entry(key: &Key, value: &[u8], into: &mut [u8]) -> Option<usize>
    ensures answer { result ≡ entry_front key.now value.now into.old }
    ensures after { into.new ≡ with_entry key.now value.now into.old }
{
    let size = entry_size(value.len())?;
    if into.len() < size {
        return None;
    }
    // from here on all that is written fits
    let mut end = put_record(into, 0, Kind::LogHead, &head_body(key, value.len()))?;
    for piece in value.chunks(BLOCK) {
        end = put_record(into, end, Kind::LogBlock, &block_body(piece))?;
    }
    Some(end)
}
