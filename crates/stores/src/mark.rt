//! Marks: who raised a fault.

ghost use Rattle.std.specs.Prelude.{◌≤◌};

pub mod making;

/// The mark of a store or a layer, 1 to 255.
#[derive(Clone, Copy, Debug, PartialEq, Eq)]
pub struct Mark {
    number: u8,
    ghost some: { 1 ≤ number },
    ghost most: { number ≤ 255 },
}
