//! Records in bytes: reading one at the front, writing one at a place.

ghost use Rattle.std.specs.Prelude.{◌≡◌, ◌+◌, length, if◌then◌else◌, Some, None};
ghost use Rattle.std.proofs.Math.Seq.{paste};
ghost use Rattle.std.specs.Option.{option_map};
ghost use Rattle.records.specs.Records.{record_size, record_bytes, split_record, split_of, record_fits};

use crate::kind::Kind;

/// The body of the record of that kind at the front of some bytes, and the bytes behind it.
pub fn split_record(kind: Kind, bytes: &[u8]) -> Option<(&[u8], &[u8])>
    ensures { option_map split_of result ≡ split_record kind bytes.now }
{
    let (first, behind) = bytes.split_first()?;
    if *first != u8::from(kind) {
        return None;
    }
    behind.split_at_checked(kind.body_length())
}

/// Writes a record at a place, and answers the place behind it; absent, and nothing is written, where the body is
/// not of the kind's length or the record does not fit.
pub fn put_record(into: &mut [u8], at: usize, kind: Kind, body: &[u8]) -> Option<usize>
    ensures answer { result ≡ (if record_fits kind body.now at into.old then Some (at + record_size kind) else None) }
    ensures after { into.new ≡ (if record_fits kind body.now at into.old then paste into.old at (record_bytes kind body.now) (record_size kind) else into.old) }
{
    let length = kind.body_length();
    if body.len() != length || at >= into.len() || into.len() - at - 1 < length {
        return None;
    }
    into[at] = u8::from(kind);
    into[at + 1..at + 1 + length].copy_from_slice(body);
    Some(at + 1 + length)
}
