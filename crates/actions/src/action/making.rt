//! Making actions, and their parts.

ghost use Rattle.std.specs.Prelude.{◌≡◌, map};
ghost use Rattle.std.specs.Option.{option_map};
ghost use Rattle.actions.specs.Actions.{make_action};
ghost use Rattle.actions.specs.Views.{argument_bytes, act_of};

use super::Action;
use crate::argument::Argument;
use crate::part::Part;
use keys::Key;
use lists::Few;

impl Action {
    /// The action of these parts; absent unless they are a letter A to Z, up to 2 arguments and 1 to 4 inputs.
    pub fn new(letter: u8, arguments: &[Argument], inputs: &[Key]) -> Option<Action>
        ensures { option_map act_of result ≡ make_action letter (map argument_bytes arguments.now) inputs.now }
    {
        let first = inputs.first()?;
        if !letter.is_ascii_uppercase() {
            return None;
        }
        Some(Action {
            letter,
            arguments: Few::from_slice(Argument::filler(), arguments)?,
            inputs: Few::from_slice(*first, inputs)?,
        })
    }

    /// The letter of the operation.
    pub fn letter(&self) -> u8
        ensures { result ≡ (act_of self.now).letter }
    {
        self.letter
    }

    /// The arguments, in order.
    pub fn arguments(&self) -> &[Argument]
        ensures { map argument_bytes result.now ≡ (act_of self.now).arguments }
    {
        self.arguments.as_slice()
    }

    /// The keys of the inputs, in order.
    pub fn inputs(&self) -> &[Key]
        ensures { result.now ≡ (act_of self.now).inputs }
    {
        self.inputs.as_slice()
    }
}
