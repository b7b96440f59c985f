// Provenance: which bytes of the text each part of a scalar's value stands for.
//
// A walk goes through the text and the value side by side and leaves pieces in a buffer that it is lent. What it leaves, and when it
// leaves nothing, is demand 3: `specs/Demand.antt`. White space goes by bytes here. (01: Reading rules, Piece grammar; W1.)
//
// Contracts bound texts, places and lengths (`text_limit`, `place_limit`, `start + len ≤ length text`): so sums and casts stay within
// their numbers, by 01's limits. A type for each bound would be made and taken apart at one call.
#![tactic(auto)]

pub mod escape;
pub mod run;
pub mod scalar;
pub mod start;
pub mod step;
pub mod walk;
pub mod write;
