//! What a store answers.

use crate::mark::Mark;
use std::error::Error;
use std::fmt;

/// A making that was declined: nothing is made, and what was given comes back.
#[derive(Debug, Drop, PartialEq, Eq)]
pub struct Declined<T> {
    pub given: T,
}

/// Why a call failed.
#[derive(Clone, Copy, Debug, PartialEq, Eq)]
pub enum Cause {
    /// The line is busy: another try may help.
    Busy,
    /// The line is broken.
    Broken,
    /// A value has another key than the one it goes by.
    Differs,
    /// There is no room.
    NoRoom,
    /// There is no store.
    Absent,
}

/// A fault: what raised it, and why.
#[derive(Clone, Copy, Debug, PartialEq, Eq)]
pub struct Fault {
    pub mark: Mark,
    pub cause: Cause,
}

/// What a call that was done gives, and the first fault met on the way.
#[derive(Clone, Copy, Debug, PartialEq, Eq)]
pub struct Answer<T> {
    pub value: T,
    pub first: Option<Fault>,
}

/// Why a call was not done.
#[derive(Clone, Copy, Debug, PartialEq, Eq)]
pub enum StoreError {
    /// It failed, and this was the first fault met on the way.
    Failed(Fault),
    /// The buffer has another length than a value's room, or the value is longer than it; nothing was done.
    Refused,
}

/// The length of the value that was found, none where no pair of the key is held.
pub type FindResult = Result<Answer<Option<usize>>, StoreError>;

/// The pair is held.
pub type PutResult = Result<Answer<()>, StoreError>;

impl fmt::Display for Cause {
    ghost use Rattle.std.specs.Prelude.{Some};
    ghost use Rattle.stores.specs.Texts.{cause_text};

    ghost output = { λ c. Some (cause_text c) };

    fn fmt<W: fmt::Write>(&self, f: &mut fmt::Formatter<W>) -> fmt::Result {
        f.write_str(match self {
            Cause::Busy => "busy",
            Cause::Broken => "broken",
            Cause::Differs => "another key",
            Cause::NoRoom => "no room",
            Cause::Absent => "no store",
        })
    }
}

impl fmt::Display for StoreError {
    ghost use Rattle.std.specs.Prelude.{Some};
    ghost use Rattle.stores.specs.Texts.{store_error_text};

    ghost output = { λ e. Some (store_error_text e) };

    fn fmt<W: fmt::Write>(&self, f: &mut fmt::Formatter<W>) -> fmt::Result {
        match self {
            StoreError::Failed(fault) => {
                let mark = u8::from(fault.mark);
                let cause = fault.cause;
                write!(f, "mark {mark}: {cause}")
            }
            StoreError::Refused => f.write_str("refused for its length"),
        }
    }
}

impl Error for StoreError {}

impl<T> fmt::Display for Declined<T> {
    ghost use Rattle.std.specs.Prelude.{Some, codes};

    ghost output = { λ _. Some (codes "declined") };

    fn fmt<W: fmt::Write>(&self, f: &mut fmt::Formatter<W>) -> fmt::Result {
        f.write_str("declined")
    }
}

impl<T: fmt::Debug + Drop> Error for Declined<T> {}
