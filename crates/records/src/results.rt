//! Result records: the key of an output.

ghost use Rattle.std.specs.Prelude.{◌≡◌};
ghost use Rattle.records.specs.Results.{result_bytes, read_result, with_front, front_size, ResultsRoundTrip};

use crate::kind::Kind;
use crate::parts::{put_record, split_record};
use keys::Key;

/// Writes a result record at the front of a buffer, and answers its size; absent, and nothing is written, where it
/// does not fit.
pub fn write_result(key: &Key, into: &mut [u8]) -> Option<usize>
    ensures answer { result ≡ front_size (result_bytes key.now) into.old }
    ensures after { into.new ≡ with_front (result_bytes key.now) into.old }
{
    put_record(into, 0, Kind::Result, &key.to_bytes())
}

/// The key in bytes that are a result record and nothing else.
pub fn read_result(bytes: &[u8]) -> Option<Key>
    ensures { result ≡ read_result bytes.now }
{
    let (body, rest) = split_record(Kind::Result, bytes)?;
    if !rest.is_empty() {
        return None;
    }
    Key::read(body)
}

/// Carries the theorem that a result record reads back as its key, and no other bytes read as it.
pub fn results_round_trip()
    ensures { ResultsRoundTrip }
{}
