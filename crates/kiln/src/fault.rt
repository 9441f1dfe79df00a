//! What ends the program without success.

use crate::USAGE;
use commands::Misuse;
use log_store::LOG_ROOM;
use slots::SLOT;
use std::alloc::AllocError;
use std::{fmt, io};

/// Why the program does not do what it is asked.
#[derive(Debug, Drop)]
pub enum Fault<'a> {
    /// The command line is not understood.
    Misuse(Misuse<'a>),
    /// A file does not serve.
    File { name: &'a str, reason: FileFault },
    /// So many files have no key, and each was spoken of.
    NoKeys { failed: usize, all: usize },
    /// A word is no argument of an action.
    NoArgument(&'a str),
    /// A word is no key.
    NoKey(&'a str),
    /// Letter, arguments and keys make no action.
    NoAction,
    /// Memory or a standard stream fails, which is not spoken of.
    System(io::Error),
}

/// Why a file does not serve.
#[derive(Debug, Drop)]
pub enum FileFault {
    /// It cannot be read.
    Unread(io::Error),
    /// The digest takes up to so many bytes.
    TooLong { most: u32 },
    /// So many bytes have no slot.
    NoSlot { len: usize },
    /// It has more bytes than a log.
    LongLog,
}

impl fmt::Display for Fault<'_> {
    fn fmt<W: fmt::Write>(&self, f: &mut fmt::Formatter<W>) -> fmt::Result {
        match self {
            Fault::Misuse(misuse) => write!(f, "{misuse}\n{USAGE}"),
            Fault::File { name, reason } => write!(f, "{name}: {reason}"),
            Fault::NoKeys { failed, all } => write!(f, "no key for {failed} of {all} files"),
            Fault::NoArgument(word) => write!(
                f,
                "'{word}' is no argument: 1 to 16 bytes, without spaces or control bytes"
            ),
            Fault::NoKey(word) => write!(
                f,
                "'{word}' is no key: 72 digits 0 to 9 and a to f, as kiln key prints them"
            ),
            Fault::NoAction => {
                write!(
                    f,
                    "an action has a letter A to Z, up to 2 arguments and 1 to 4 keys"
                )
            }
            Fault::System(error) => write!(f, "{error}"),
        }
    }
}

impl fmt::Display for FileFault {
    fn fmt<W: fmt::Write>(&self, f: &mut fmt::Formatter<W>) -> fmt::Result {
        match self {
            FileFault::Unread(error) => write!(f, "{error}"),
            FileFault::TooLong { most } => {
                write!(
                    f,
                    "too long for this digest, which takes up to {most} bytes"
                )
            }
            FileFault::NoSlot { len } => write!(
                f,
                "{len} bytes are too few for a cache of slots, which has {SLOT} or more"
            ),
            FileFault::LongLog => write!(f, "too long for a log, which has up to {LOG_ROOM} bytes"),
        }
    }
}

impl From<io::Error> for Fault<'_> {
    fn from(error: io::Error) -> Self {
        Fault::System(error)
    }
}

impl From<AllocError> for Fault<'_> {
    fn from(error: AllocError) -> Self {
        Fault::System(io::Error::from(error))
    }
}
