// The core schema of YAML 1.2.2 (10.3): what kind of value a scalar is, with or without a tag, and the numbers that a record
// holds of it. (P2, S10, E2, F8.)
#![tactic(auto)]

pub mod form;
pub mod integer;
pub mod plain;
pub mod record;
pub mod tag;
