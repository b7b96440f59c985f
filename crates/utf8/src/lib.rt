// UTF-8: byte classes, the test of a text, characters, white space by code points.
//
// A text is a slice of bytes. Nothing here assumes that somebody looked at it before, but where a `Utf8Bytes` or a `Place` says so by its
// type.
#![tactic(auto)]

pub mod class;
pub mod utf8;
pub mod white_space;
mod window;
