//! Slots: a store over bytes that are cut into slots of one size.

#![tactic(auto)]

pub mod slots;
pub mod table;

pub use self::slots::Slots;
pub use self::slots::storing::slots_reopen;
pub use self::table::SLOT;
