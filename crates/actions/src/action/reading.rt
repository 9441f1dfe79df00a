//! Reading actions from their texts.

ghost use Rattle.std.specs.Prelude.{◌≡◌, is_some};
ghost use Rattle.std.specs.Option.{option_map};
ghost use Rattle.records.specs.Records.{and_then, alone, split_record};
ghost use Rattle.records.specs.declared.kind.Kind.TheVariants.{End};
ghost use Rattle.actions.specs.Actions.{several, argument_most, read_argument, read_arguments, read_action, ActionsRoundTrip};
ghost use Rattle.actions.specs.Views.{act_of};

use super::{ARGUMENT_MOST, Action, INPUT_MOST};
use crate::part::read_parts;
use records::{Kind, split_record};

/// Whether some bytes are an end record and nothing else.
fn is_end(bytes: &[u8]) -> bool
    ensures { result ≡ is_some (and_then (split_record End bytes.now) alone) }
{
    split_record(Kind::End, bytes).is_some_and(|(_, rest)| rest.is_empty())
}

/// The action of a letter and the bytes behind its operation record.
fn read_behind(letter: u8, bytes: &[u8]) -> Option<Action>
    ensures { option_map act_of result ≡ read_arguments letter (several read_argument argument_most bytes.now) }
{
    let (arguments, rest) = read_parts::<_, ARGUMENT_MOST>(bytes);
    let (inputs, rest) = read_parts::<_, INPUT_MOST>(rest);
    if !is_end(rest) {
        return None;
    }
    Action::new(letter, arguments.as_slice(), inputs.as_slice())
}

impl Action {
    /// The action that some bytes are the text of; absent for bytes that are no action's text.
    pub fn read(bytes: &[u8]) -> Option<Action>
        ensures { option_map act_of result ≡ read_action bytes.now }
    {
        let (operation, rest) = split_record(Kind::Operation, bytes)?;
        read_behind(*operation.first()?, rest)
    }
}

/// Carries the theorem that actions read back from their texts, and that no other bytes read as them.
pub fn actions_round_trip()
    ensures { ActionsRoundTrip }
{}
