// The event bytes: what reaches the builder, read one event at a time from bytes that nobody has looked at before.
//
// An answer holds numbers, and the places and lengths of strings in the event bytes. Nothing is copied. The bytes and a place in them are
// two parameters: a reader that moves on would have to say in each contract that its bytes stay.
#![tactic(auto)]

pub mod malformed;
pub mod number;
pub mod read;
pub mod string;
pub mod tag;
