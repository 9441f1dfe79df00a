//! The parts of an action that stand in records of their own: its arguments, and the keys of its inputs.

ghost use Rattle.std.specs.Prelude.{◌≡◌, ℕ, ◌++◌, List, Option, take, map};
ghost use Rattle.std.specs.List.{flat_map};
ghost use Rattle.std.specs.Option.{option_map};
ghost use Rattle.keys.specs.Keys.{key_bytes, read_key};
ghost use Rattle.keys.specs.declared.key.Key.{Key};
ghost use Rattle.lists.specs.Few.{few_items};
ghost use Rattle.records.specs.declared.kind.Kind.{Kind};
ghost use Rattle.records.specs.declared.kind.Kind.TheVariants.{Input};
ghost use Rattle.records.specs.Records.{record_bytes};
ghost use Rattle.actions.specs.Actions.{longest_text, read_record, several};
ghost use Rattle.actions.specs.Views.{part_read, parts_read};

use crate::action::ActionText;
use keys::Key;
use lists::Few;
use records::{Kind, split_record};

/// What has records of one kind, and bodies that it writes and reads.
pub(crate) trait Part: Copy {
    // what a part is to those who read its record
    ghost Seen: { Type 0 };

    ghost seen: { Self → Seen };

    // the kind of its records, the body of each, and what a body reads as
    ghost kind: { Kind };

    ghost body_of: { Seen → List ℕ };

    ghost from_body: { List ℕ → Option Seen };

    /// Some part, to fill places that hold none.
    fn filler() -> Self;

    /// The kind of its records.
    fn kind() -> Kind
        ensures { result ≡ kind };

    /// Puts the body of its record behind a text, as far as there is room.
    fn append_body(&self, text: &mut ActionText)
        ensures { few_items text.new ≡ take longest_text (few_items text.old ++ body_of (seen self.now)) };

    /// The part in the body of a record.
    fn read_body(body: &[u8]) -> Option<Self>
        ensures { option_map seen result ≡ from_body body.now };
}

impl Part for Key {
    ghost Seen = { Key };

    ghost seen = { λ k. k };

    ghost kind = { Input };

    ghost body_of = { key_bytes };

    ghost from_body = { read_key };

    fn filler() -> Key {
        Key::new([0; 4], 0)
    }

    fn kind() -> Kind {
        Kind::Input
    }

    fn append_body(&self, text: &mut ActionText) {
        text.append_what_fits(&self.to_bytes());
    }

    fn read_body(body: &[u8]) -> Option<Key> {
        Key::read(body)
    }
}

/// Puts a record behind a text, as far as there is room.
pub(crate) fn append_record(text: &mut ActionText, kind: Kind, body: &[u8])
    ensures { few_items text.new ≡ take longest_text (few_items text.old ++ record_bytes kind body.now) }
{
    text.append_what_fits(&[u8::from(kind)]);
    text.append_what_fits(body);
}

/// Puts the record of a part behind a text, as far as there is room.
fn append_part<P: Part>(text: &mut ActionText, part: &P)
    ensures { few_items text.new ≡ take longest_text (few_items text.old ++ record_bytes P.kind (P.body_of (P.seen part.now))) }
{
    text.append_what_fits(&[u8::from(P::kind())]);
    part.append_body(text);
}

/// Puts the records of parts behind a text, as far as there is room.
pub(crate) fn append_parts<P: Part>(text: &mut ActionText, parts: &[P])
    ensures { few_items text.new ≡ take longest_text (few_items text.old ++ flat_map (λ x. record_bytes P.kind (P.body_of (P.seen x))) parts.now) }
{
    for part in parts {
        append_part(text, part);
    }
}

/// The part whose record stands at the front of some bytes, and the bytes behind it.
fn read_part<P: Part>(bytes: &[u8]) -> Option<(P, &[u8])>
    ensures { option_map (part_read P.seen) result ≡ read_record P.kind P.from_body bytes.now }
{
    let (body, rest) = split_record(P::kind(), bytes)?;
    Some((P::read_body(body)?, rest))
}

/// The parts at the front of some bytes, as far as they go and have room, and the bytes behind them.
pub(crate) fn read_parts<P: Part, const N: usize>(bytes: &[u8]) -> (Few<P, N>, &[u8])
    ensures { parts_read P.seen result ≡ several (read_record P.kind P.from_body) N bytes.now }
{
    let mut parts = Few::new(P::filler());
    let mut rest = bytes;
    for _ in 0..N {
        // kept: a pair taken apart in the pattern leaves the invariant unproved
        let Some(front) = read_part(rest) else {
            return (parts, rest);
        };
        parts.push(front.0).unwrap();
        rest = front.1;
    }
    (parts, rest)
}
