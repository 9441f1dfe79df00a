//! What a store of pairs is: the interface, its meaning, and the store that holds nothing.

#![tactic(auto)]

pub mod absent;
pub mod answers;
pub mod mark;
pub mod store;
pub mod value;

pub use self::absent::Absent;
pub use self::answers::{Answer, Cause, Declined, Fault, FindResult, PutResult, StoreError};
pub use self::mark::Mark;
pub use self::store::{Store, blank, check_buffer, missing};
pub use self::value::Value;
