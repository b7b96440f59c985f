// The measures: how many bytes a scalar occupies in its text, and whether that was found there or assumed.
//
// Each gets the rest of the text from the scalar's start as a part, and counts from its first byte. (01: Reading rules; F3.)
// The rest and the value are parameters side by side: a pair of them would be made anew at each call.
#![tactic(auto)]

pub mod block;
pub mod length;
pub mod plain;
pub mod quoted;
pub mod run;
pub mod scalar;
