// The accessors of `node` asked and their answers matched with a list, for replay programs over records. The questions and their order
// are those of the oracle's `accessors`.
#![tactic(auto)]

pub mod matched;
pub mod questions;
