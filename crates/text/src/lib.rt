// The text layer: marker offsets, and the tests that a text passes first.
#![tactic(auto)]

pub mod admission;
pub mod offset;
