// Replays the original's piece lists: each case is one scalar, read by the call on one scalar in the room of the case, of which every
// number is compared.
#![tactic(auto)]

use event::read::{Event, read_event};
use parser::one::scalar;
use records::record::{Extent, Node, PieceList};
use replay::case::{Case, bytes_at, number_at, same_numbers};
use replay::record::{
    END_AT, FIRST_PIECE_AT, KIND_AT, MEASURED_AT, PARENT_AT, PIECE_COUNT_AT, START_AT,
};
use replay::tally::verdict_in_piece_room;
use std::io;

// Whether a node has the kind, the span, the list, the parent and the flag of a record; the last two are not the original's, but the oracle's
// second implementation's. The payload of a real or a string names its place in the event bytes, which this call does not have, and is left
// to `replay_schema`.
fn same_node(node: Node, record: &[u8]) -> bool {
    let extent = Extent {
        start: number_at(record, START_AT),
        end: number_at(record, END_AT),
    };
    let list = PieceList {
        first: number_at(record, FIRST_PIECE_AT),
        count: number_at(record, PIECE_COUNT_AT),
    };
    node.kind == number_at(record, KIND_AT)
        && node.extent == extent
        && node.list == list
        && node.parent == number_at(record, PARENT_AT)
        && node.measured == number_at(record, MEASURED_AT)
}

// Reads the scalar of a case in this buffer, and compares the answer and every number of it.
fn read_the_same(case: Case<'_>, pieces: &mut [u32]) -> bool {
    let Some(returned) = case.returned else {
        return false;
    };
    let Ok(
        (
            Event::Scalar {
                index,
                column,
                style,
                empty_span,
                value,
                ..
            },
            _,
        ),
    ) = read_event(case.events, 0)
    else {
        return false;
    };
    let value = bytes_at(case.events, value.at, value.len);
    let style = u8::from(style);
    let same = match scalar(case.text, index, column, style, empty_span, value, pieces) {
        Ok(built) => {
            returned.code == 0
                && returned.second == built.pieces
                && same_node(built.node, case.records)
        }
        Err(refusal) => returned.code == u32::from(refusal),
    };
    same && same_numbers(pieces, case.pieces)
}

fn main(rt: HostRuntime) -> io::Result<()> {
    replay::run(&rt, |bytes| verdict_in_piece_room(bytes, read_the_same))
}
