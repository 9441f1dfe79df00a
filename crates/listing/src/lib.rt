//! The lines that the program `kiln` prints, as text.

#![tactic(auto)]

ghost use Rattle.std.specs.Prelude.{◌≡◌, IfOk, Some, string_bytes};
ghost use Rattle.std.specs.Option.{option_map};
ghost use Rattle.keys.specs.Digests.{key_of};
ghost use Rattle.actions.specs.Actions.{action_text};
ghost use Rattle.actions.specs.Views.{act_of};
ghost use Rattle.keys.specs.Texts.{key_text, read_key_text};
ghost use Rattle.listing.specs.Lines.{key_line, action_lines};

use actions::Action;
use hexadecimal::{Hex, read_hex};
pub use keys::key_texts_round_trip;
use keys::{Digest, Key, key_of};
use std::alloc::{AllocError, Global};

/// A key as people read it.
pub fn key_text(heap: Global, key: &Key) -> Result<String, AllocError>
    ensures { IfOk result (λ t. string_bytes t ≡ key_text key.now) }
{
    key.to_string(heap)
}

/// The line of one key: the key, the byte count, the name.
fn line_of(heap: Global, key: &Key, name: &str) -> Result<String, AllocError>
    ensures { IfOk result (λ t. string_bytes t ≡ key_line name.now key.now) }
{
    let count = key.count();
    format!(in heap; "{key}  {count}  {name}")
}

/// The line of the key of some bytes under a digest; absent where they are too long for it.
pub fn key_line<D: Digest>(
    heap: Global,
    bytes: &[u8],
    name: &str,
) -> Result<Option<String>, AllocError>
    ensures { IfOk result (λ line. option_map string_bytes line ≡ option_map (key_line name.now) (key_of D.LONGEST D.words bytes.now)) }
{
    key_of::<D>(bytes)
        .map(|key| line_of(heap, &key, name))
        .transpose()
}

/// The key that a text is the text of; absent for a text of another form.
pub fn key_from_text(text: &[u8]) -> Option<Key>
    ensures { result ≡ read_key_text text.now }
{
    // by bytes and not by `parse`, which wants a `&str`: `read_hex` refuses another length before it reads any
    let mut bytes = [0u8; Key::SIZE];
    read_hex(text, &mut bytes).ok()?;
    Key::read(&bytes)
}

/// The lines of an action: its text in hexadecimal, and the key of that text under a digest.
pub fn action_lines<D: Digest>(heap: Global, action: &Action) -> Result<String, AllocError>
    ensures { IfOk result (λ t. option_map (action_lines (action_text (act_of action.now))) (key_of D.LONGEST D.words (action_text (act_of action.now))) ≡ Some (string_bytes t)) }
{
    let bytes = action.text();
    let text = Hex(bytes.as_slice());
    let key = action.key::<D>();
    format!(in heap; "text {text}\nkey {key}")
}
