//! Making, writing and reading arguments.

ghost use Rattle.std.specs.Prelude.{◌≡◌, ℕ, List, if◌then◌else◌, Some, None};
ghost use Rattle.std.specs.Option.{option_map};
ghost use Rattle.std.specs.List.{list_all};
ghost use Rattle.records.specs.declared.kind.Kind.TheVariants.{Argument as ArgumentKind};
ghost use Rattle.actions.specs.Words.{argument_byte, is_argument, argument_body, read_argument_body};
ghost use Rattle.actions.specs.Views.{argument_bytes};

use super::{Argument, BODY, ROOM};
use crate::action::ActionText;
use crate::part::Part;
use lists::{Few, are_zeros};
use records::Kind;

/// Whether each byte may stand in an argument.
fn are_argument_bytes(bytes: &[u8]) -> bool
    ensures { result ≡ list_all argument_byte bytes.now }
{
    bytes.iter().all(|b| b.is_ascii_graphic())
}

/// Whether some bytes are an argument.
fn is_argument(bytes: &[u8]) -> bool
    ensures { result ≡ is_argument bytes.now }
{
    !bytes.is_empty() && bytes.len() <= ROOM && are_argument_bytes(bytes)
}

impl Argument {
    // kept: bytes that are no argument have no reason to tell, so `TryFrom` would add an error that says nothing
    /// The argument of these bytes; absent where they are not 1 to 16 bytes of 33 to 126.
    pub fn new(bytes: &[u8]) -> Option<Argument>
        ensures { option_map argument_bytes result ≡ (if is_argument bytes.now then Some bytes.now else None) }
    {
        if !is_argument(bytes) {
            return None;
        }
        let bytes = Few::from_slice(0, bytes)?;
        Some(Argument { bytes })
    }

    /// The bytes of the argument.
    pub fn as_bytes(&self) -> &[u8]
        ensures { result.now ≡ argument_bytes self.now }
    {
        self.bytes.as_slice()
    }

    /// The body of the argument's record: its length, its bytes, zeros.
    pub fn body(&self) -> [u8; BODY]
        ensures { result ≡ argument_body (argument_bytes self.now) }
    {
        let mut body = [0u8; BODY];
        let length = self.bytes.len();
        body[0] = length as u8;
        body[1..1 + length].copy_from_slice(self.as_bytes());
        body
    }
}

impl Part for Argument {
    ghost Seen = { List ℕ };

    ghost seen = { argument_bytes };

    ghost kind = { ArgumentKind };

    ghost body_of = { argument_body };

    ghost from_body = { read_argument_body };

    fn filler() -> Argument {
        let mut bytes = Few::new(0);
        bytes.append_what_fits(b"-");
        Argument { bytes }
    }

    fn kind() -> Kind {
        Kind::Argument
    }

    fn append_body(&self, text: &mut ActionText) {
        text.append_what_fits(&self.body());
    }

    fn read_body(body: &[u8]) -> Option<Argument> {
        let (length, room) = body.split_first()?;
        let (bytes, behind) = room.split_at_checked(*length as usize)?;
        if !are_zeros(behind) {
            return None;
        }
        Argument::new(bytes)
    }
}
