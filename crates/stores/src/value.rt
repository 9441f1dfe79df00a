//! Values: byte strings that have room in a store.

ghost use Rattle.std.specs.Prelude.{◌≤◌, length};
ghost use Rattle.keys.specs.Digests.{value_room};

pub mod making;

/// At most 2,048 bytes, borrowed.
#[derive(Clone, Copy, Debug)]
pub struct Value<'a> {
    bytes: &'a [u8],
    ghost short: { length bytes.now ≤ value_room },
}
