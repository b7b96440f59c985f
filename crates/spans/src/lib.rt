// What one scalar or collection comes to: where it starts and ends, its tag, its pieces, its record. (01: Reading rules.)
#![tactic(auto)]

pub mod collection;
pub mod open;
pub mod scalar;
