// The tree builder: from a text and its event bytes to records and pieces in buffers that the caller lends. (01: parser.rs.)
//
// `build::build` takes a whole document, `one::scalar` one scalar. Neither asks anything of its caller.
#![tactic(auto)]

pub mod answer;
pub mod build;
mod on_event;
pub mod one;
mod stack;
