//! Small records: one byte of kind, then a body whose length the kind fixes.

#![tactic(auto)]

pub mod kind;
pub mod parts;
pub mod results;

pub use self::kind::Kind;
pub use self::parts::{put_record, split_record};
pub use self::results::{read_result, results_round_trip, write_result};
