//! The store that is not there.

use crate::mark::Mark;

pub mod making;

/// A store that holds nothing and keeps nothing.
#[derive(Clone, Copy, Debug, PartialEq, Eq)]
pub struct Absent {
    mark: Mark,
}
