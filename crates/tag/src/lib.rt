// The tag search: the tag property before a node, and the tag's span, found or guessed. (01: Reading rules, Tag span.)
//
// A text is UTF-8, and a node starts at one of its boundaries: a `Place` says both by its type. Each byte gone back over is looked at a
// bounded number of times.
#![tactic(auto)]

pub mod property;
mod token;
