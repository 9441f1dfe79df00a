//! An argument of a tool.

ghost use Rattle.std.specs.Prelude.{◌≡◌, true};
ghost use Rattle.lists.specs.Few.{few_items};
ghost use Rattle.actions.specs.Words.{is_argument};

use lists::Few;

pub mod texts;

/// The most bytes of an argument.
pub(crate) const ROOM: usize = 16;

/// The body of an argument record: a length, and the room of the bytes.
pub(crate) const BODY: usize = 1 + ROOM;

/// 1 to 16 bytes of 33 to 126.
#[derive(Clone, Copy)]
pub struct Argument {
    bytes: Few<u8, ROOM>,
    ghost good: { is_argument (few_items bytes) ≡ true },
}
