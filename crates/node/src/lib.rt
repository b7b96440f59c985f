// The accessors of yaml_with_source_info.rs over a record buffer, and `scan_error`. (01: yaml_with_source_info.rs and error.rs; N3, N4.)
//
// A node is a record's number. Every call reads any buffer, built here or not, and asks nothing of its caller.
//
// Buffer and number are two parameters and no handle: answers are numbers, as in the C interface, so a handle of both would be made anew
// for each of them, at every step from one record to the next; nor would a handle of the records alone be plainer: it would only rename
// the slice. The event bytes and a key are two more parameters, which only the search needs.
#![tactic(auto)]

pub mod child;
pub mod entry;
pub mod kind;
pub mod marker;
pub mod record;
pub mod search;
pub mod source;
