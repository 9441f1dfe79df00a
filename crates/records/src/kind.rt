//! The kinds of records.

ghost use Rattle.std.specs.Prelude.{◌≡◌};
ghost use Rattle.records.specs.Records.{kind_number, body_length};

use keys::Key;

/// What a record is; each kind has a number and a length of its body.
#[derive(Clone, Copy, Debug, PartialEq, Eq)]
pub enum Kind {
    /// Ends an action text.
    End,
    /// The letter of an operation.
    Operation,
    /// An argument: its length, its bytes, zeros.
    Argument,
    /// The key of an input.
    Input,
    /// The key of an output.
    Result,
    /// The head of a log entry: the key and the length of its value.
    LogHead,
    /// A block of the value of a log entry.
    LogBlock,
}

impl From<Kind> for u8 {
    ghost from_gives = { λ kind number. number ≡ kind_number kind };

    /// The first byte of a record of that kind.
    fn from(kind: Kind) -> u8 {
        match kind {
            Kind::End => 0,
            Kind::Operation => 1,
            Kind::Argument => 2,
            Kind::Input => 3,
            Kind::Result => 4,
            Kind::LogHead => 5,
            Kind::LogBlock => 6,
        }
    }
}

impl Kind {
    /// How many bytes follow the kind.
    pub fn body_length(self) -> usize
        ensures { result ≡ body_length self }
    {
        match self {
            Kind::End => 0,
            Kind::Operation => 1,
            Kind::Argument => 17,
            Kind::Input | Kind::Result => Key::SIZE,
            Kind::LogHead => Key::SIZE + 4,
            Kind::LogBlock => 32,
        }
    }
}
