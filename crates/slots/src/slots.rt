//! The store.

ghost use Rattle.std.specs.Prelude.{◌<◌, ◌≤◌, vec_len};
ghost use Rattle.slots.specs.Table.{slot_size, slot_count};

pub mod pairs;
pub mod storing;

/// A table of slots in owned bytes, and the slot that is overwritten next.
#[derive(Drop)]
pub struct Slots {
    bytes: Vec<u8>,
    cursor: usize,
    ghost some: { slot_size ≤ vec_len bytes },
    ghost placed: { cursor < slot_count (vec_len bytes) },
}
