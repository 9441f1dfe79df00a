//! Cache files as text: which pairs they hold, and where they are damaged.

#![tactic(auto)]

pub mod logs;
pub mod pairs;
pub mod tables;

pub use self::logs::{log_listing, looks_like_log};
pub use self::tables::slots_listing;
