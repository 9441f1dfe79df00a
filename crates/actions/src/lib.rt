//! Action texts: what a step does and to which inputs, as bytes whose key names the step in a cache.

#![tactic(auto)]

pub mod action;
pub mod argument;
mod part;

pub use self::action::reading::actions_round_trip;
pub use self::action::{Action, ActionText};
pub use self::argument::Argument;
