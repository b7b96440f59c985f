// Replays which spans are measured: each case is one scalar without a tag, read by the call on one scalar. The record of the case is one
// number: 1 for a measured span, 0 for an assumed one or a refusal. The original does not say which; the answers are those of the oracle's
// second implementation.
#![tactic(auto)]

use parser::one::scalar;
use replay::case::{Case, NUMBER_BYTES, number_at};
use replay::tally::verdict_in_piece_room;
use std::io;

// Where the fields of a scalar's event stand, in bytes. Style and value are handed on unread, for the call to refuse.
const INDEX_AT: usize = 3;

const COLUMN_AT: usize = 7;

const STYLE_AT: usize = 11;

const EMPTY_SPAN_AT: usize = 12;

const VALUE_AT: usize = 14;

// Reads the scalar of a case in this buffer, and compares the refusal and the flag.
fn read_the_same(case: Case<'_>, pieces: &mut [u32]) -> bool {
    let event = case.events;
    let Some(value) = event.get(VALUE_AT..) else {
        return false;
    };
    let index = number_at(event, INDEX_AT);
    let column = number_at(event, COLUMN_AT);
    let style = event[STYLE_AT];
    let empty_span = event[EMPTY_SPAN_AT] == 1;
    let (code, measured) = match scalar(
        case.text, index, column, style, empty_span, value, pieces,
    ) {
        Ok(built) => (0, built.node.measured),
        Err(refusal) => (u32::from(refusal), 0),
    };
    case.records.len() == NUMBER_BYTES
        && case.returned.is_some_and(|returned| returned.code == code)
        && number_at(case.records, 0) == measured
}

fn main(rt: HostRuntime) -> io::Result<()> {
    replay::run(&rt, |bytes| verdict_in_piece_room(bytes, read_the_same))
}
