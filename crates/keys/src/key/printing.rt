//! Keys as text: 72 digits.

ghost use Rattle.std.specs.Prelude.{Some, codes};
ghost use Rattle.keys.specs.Texts.{key_text, ReadsKey};

use super::Key;
use hexadecimal::{Hex, read_hex};
use std::error::Error;
use std::fmt;
use std::str::FromStr;

impl fmt::Display for Key {
    ghost output = { λ k. Some (key_text k) };

    fn fmt<W: fmt::Write>(&self, f: &mut fmt::Formatter<W>) -> fmt::Result {
        write!(f, "{}", Hex(&self.to_bytes()))
    }
}

/// A text that is not a key's.
#[derive(Clone, Copy, Debug, PartialEq, Eq)]
pub struct NoKey;

impl fmt::Display for NoKey {
    ghost output = { λ _. Some (codes "a key has 72 digits 0 to 9 and a to f") };

    fn fmt<W: fmt::Write>(&self, f: &mut fmt::Formatter<W>) -> fmt::Result {
        f.write_str("a key has 72 digits 0 to 9 and a to f")
    }
}

impl Error for NoKey {}

impl FromStr for Key {
    type Err = NoKey;

    ghost from_str_gives = { ReadsKey };

    fn from_str(text: &str) -> Result<Key, NoKey> {
        let mut bytes = [0u8; Key::SIZE];
        read_hex(text.as_bytes(), &mut bytes).map_err(|_| NoKey)?;
        Key::read(&bytes).ok_or(NoKey)
    }
}
