// Lists of the original's answers, read a case at a time: what a replay program needs to be a page. The framing is that of the
// oracle: an answered case is its length, then the text, the event bytes, the two rooms, what is returned, the records, the pieces.
#![tactic(auto)]

pub mod case;
pub mod list;
pub mod record;
pub mod stream;
pub mod tally;

pub use crate::list::run;
