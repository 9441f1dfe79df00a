//! An action: what a step does, and to which inputs.

ghost use Rattle.std.specs.Prelude.{◌≡◌, ◌≤◌, true, length};
ghost use Rattle.lists.specs.Few.{few_items};
ghost use Rattle.actions.specs.Words.{is_letter};

use crate::argument::{Argument, BODY};
use keys::Key;
use lists::Few;

pub mod making;
pub mod reading;
pub mod texts;

/// The most arguments of an action.
pub(crate) const ARGUMENT_MOST: usize = 2;

/// The most inputs of an action.
pub(crate) const INPUT_MOST: usize = 4;

const OPERATION_RECORD: usize = 1 + 1;

const ARGUMENT_RECORD: usize = 1 + BODY;

const INPUT_RECORD: usize = 1 + Key::SIZE;

const END_RECORD: usize = 1;

/// The text of an action: up to 187 bytes.
pub type ActionText = Few<u8, { Action::LONGEST }>;

/// A letter A to Z, up to 2 arguments and 1 to 4 keys of inputs, in order.
#[derive(Clone, Copy)]
pub struct Action {
    letter: u8,
    arguments: Few<Argument, ARGUMENT_MOST>,
    inputs: Few<Key, INPUT_MOST>,
    ghost capital: { is_letter letter ≡ true },
    ghost some: { 1 ≤ length (few_items inputs) },
}

impl Action {
    /// The size of the longest action text: 187 bytes.
    pub const LONGEST: usize = OPERATION_RECORD
        + (ARGUMENT_MOST * ARGUMENT_RECORD + (INPUT_MOST * INPUT_RECORD + END_RECORD));
}
