// Bytes that may be passed over many at a time: for speed only. What is passed over may be, and no answer of the layers above rests on how
// much that is.
#![tactic(auto)]

mod chunk;
pub mod letter;
pub mod mark;
