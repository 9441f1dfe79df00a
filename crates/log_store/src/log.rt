//! The store.

ghost use Rattle.std.specs.Prelude.{◌≤◌, vec_len};

use stores::Mark;

pub mod storing;

/// Entries in owned bytes, and the mark of the store.
#[derive(Drop)]
pub struct Log {
    mark: Mark,
    bytes: Vec<u8>,
    ghost short: { vec_len bytes ≤ 65536 },
}
