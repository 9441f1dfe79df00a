//! Log: a store over bytes that hold entries one after another.

#![tactic(auto)]

pub mod log;
pub mod walk;

pub use self::log::Log;
pub use self::log::storing::LOG_ROOM;
pub use self::walk::{appends_one, logs_round_trip};
