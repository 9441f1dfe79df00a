//! The texts of actions, and their keys.

ghost use Rattle.std.specs.Prelude.{◌≡◌, length, Some};
ghost use Rattle.keys.specs.Digests.{key_of};
ghost use Rattle.lists.specs.Few.{few_items};
ghost use Rattle.records.specs.Results.{front_size, with_front};
ghost use Rattle.actions.specs.Actions.{action_text, action_size};
ghost use Rattle.actions.specs.Views.{act_of};

use super::{ARGUMENT_RECORD, Action, ActionText, END_RECORD, INPUT_RECORD, OPERATION_RECORD};
use crate::part::{append_parts, append_record};
use keys::{Digest, Key, key_of};
use lists::Few;
use records::Kind;

impl Action {
    /// The size of the action's text.
    pub fn size(&self) -> usize
        ensures { result ≡ action_size (length (act_of self.now).arguments) (length (act_of self.now).inputs) }
    {
        OPERATION_RECORD
            + (self.arguments.len() * ARGUMENT_RECORD
                + (self.inputs.len() * INPUT_RECORD + END_RECORD))
    }

    /// The action's text; there is room for the longest.
    pub fn text(&self) -> ActionText
        ensures { few_items result ≡ action_text (act_of self.now) }
    {
        let mut text = Few::new(0);
        append_record(&mut text, Kind::Operation, &[self.letter]);
        append_parts(&mut text, self.arguments());
        append_parts(&mut text, self.inputs());
        append_record(&mut text, Kind::End, &[]);
        text
    }

    /// Writes the action's text at the front of a buffer, and answers its size; absent, and nothing is written, where
    /// it does not fit.
    pub fn write(&self, into: &mut [u8]) -> Option<usize>
        ensures answer { result ≡ front_size (action_text (act_of self.now)) into.old }
        ensures after { into.new ≡ with_front (action_text (act_of self.now)) into.old }
    {
        // no text is made for a buffer that has no room for it
        if into.len() < self.size() {
            return None;
        }
        let text = self.text();
        let bytes = text.as_slice();
        let (front, _) = into.split_at_mut_checked(bytes.len())?;
        front.copy_from_slice(bytes);
        Some(bytes.len())
    }

    /// The key of the action's text under a digest, which names the step in a trace cache.
    pub fn key<D: Digest>(&self) -> Key
        ensures { Some result ≡ key_of D.LONGEST D.words (action_text (act_of self.now)) }
    {
        let text = self.text();
        key_of::<D>(text.as_slice()).unwrap()
    }
}
