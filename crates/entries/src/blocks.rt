//! The blocks of a log entry: a value in pieces of 32 bytes, the last padded with zeros.

ghost use Rattle.std.specs.Prelude.{◌≡◌, ◌≤◌, length, if◌then◌else◌, Some, None, nat_le};
ghost use Rattle.std.specs.Option.{option_map};
ghost use Rattle.records.specs.Records.{block_size, split_of};
ghost use Rattle.lists.specs.Each.{zeros_to};
ghost use Rattle.keys.specs.Digests.{value_room};
ghost use Rattle.entries.specs.Blocks.{block_count, entry_size, split_blocks};

use crate::heads::HEAD_RECORD;
pub use keys::VALUE_ROOM;
use records::{Kind, split_record};

/// The bytes of a value in one block.
pub(crate) const BLOCK: usize = 32;

/// The size of a block record.
pub(crate) const BLOCK_RECORD: usize = 1 + BLOCK;

/// The size of an entry for a value of so many bytes; absent over the most bytes of a value.
pub fn entry_size(len: usize) -> Option<usize>
    ensures { result ≡ (if nat_le len value_room then Some (entry_size len) else None) }
{
    if len > VALUE_ROOM {
        return None;
    }
    Some(HEAD_RECORD + block_count(len) * BLOCK_RECORD)
}

/// How many blocks a value of so many bytes fills.
pub(crate) fn block_count(len: usize) -> usize
    ensures { result ≡ block_count len }
{
    len.div_ceil(BLOCK)
}

/// So many whole block records at the front of some bytes, and the bytes behind them.
pub(crate) fn split_blocks(count: usize, bytes: &[u8]) -> Option<(&[u8], &[u8])>
    ensures { option_map split_of result ≡ split_blocks count bytes.now }
{
    let mut rest = bytes;
    for _ in 0..count {
        let (_, behind) = split_record(Kind::LogBlock, rest)?;
        rest = behind;
    }
    Some(bytes.split_at(bytes.len() - rest.len()))
}

/// The body of a block record: a piece of a value, and zeros up to a block's size.
pub(crate) fn block_body(piece: &[u8]) -> [u8; BLOCK]
    requires { length piece.now ≤ block_size }
    ensures { result ≡ zeros_to block_size piece.now }
{
    // most pieces are whole: a copy of a fixed size, with no padding to work out
    if let Ok(whole) = <[u8; BLOCK]>::try_from(piece) {
        return whole;
    }
    let mut body = [0u8; BLOCK];
    body[..piece.len()].copy_from_slice(piece);
    body
}
