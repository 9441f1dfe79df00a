//! The heads of log entries: a key, and the length of its value.

ghost use Rattle.std.specs.Prelude.{◌≡◌};
ghost use Rattle.std.specs.Option.{option_map};
ghost use Rattle.entries.specs.Heads.{head_body, read_head, head_of};

use crate::entry::EntryHead;
use keys::{Key, VALUE_ROOM};
use numbers::{read_number, write_number};
use records::{Kind, split_record};

/// The body of a head record: a key, and a length in four bytes.
const HEAD: usize = Key::SIZE + 4;

/// The size of a head record.
pub(crate) const HEAD_RECORD: usize = 1 + HEAD;

/// The head at the front of some bytes, and the bytes behind it.
pub(crate) fn split_head(bytes: &[u8]) -> Option<(EntryHead, &[u8])>
    ensures { option_map head_of result ≡ read_head bytes.now }
{
    let (body, rest) = split_record(Kind::LogHead, bytes)?;
    let (name, len) = body.split_at(Key::SIZE);
    let key = Key::read(name)?;
    let size = read_number(len)? as usize;
    if size > VALUE_ROOM {
        return None;
    }
    Some((EntryHead { key, size }, rest))
}

/// The body of a head record.
pub(crate) fn head_body(key: &Key, len: usize) -> [u8; HEAD]
    ensures { result ≡ head_body key.now len }
{
    let mut body = [0u8; HEAD];
    body[..Key::SIZE].copy_from_slice(&key.to_bytes());
    write_number(&mut body[Key::SIZE..], len as u64);
    body
}
