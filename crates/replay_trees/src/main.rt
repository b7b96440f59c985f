// Replays the original's trees: each case is a document, built in buffers of the case's rooms, of which every number is compared. The first
// twelve numbers of a record are the original's, the last two those of the oracle's second implementations.
#![tactic(auto)]

use parser::answer::{Built, Refused};
use parser::build::build;
use replay::case::{Case, Returned, same_numbers};
use replay::tally::verdict_in_rooms;
use std::io;

// What is returned, as a list says it. `replay_nodes` has the same: a crate between, for these lines alone, would be no plainer.
fn returned(answer: Result<Built, Refused>) -> Returned {
    match answer {
        Ok(Built { nodes, pieces }) => Returned {
            code: 0,
            first: nodes,
            second: pieces,
        },
        Err(Refused { refusal, place }) => Returned {
            code: u32::from(refusal),
            first: place,
            second: 0,
        },
    }
}

// Builds the document of a case in these buffers, and compares the answer and every number of them.
fn built_the_same(case: Case<'_>, records: &mut [u32], pieces: &mut [u32]) -> bool {
    let answer = build(case.text, case.events, records, pieces);
    case.returned == Some(returned(answer))
        && same_numbers(records, case.records)
        && same_numbers(pieces, case.pieces)
}

fn main(rt: HostRuntime) -> io::Result<()> {
    replay::run(&rt, |bytes| verdict_in_rooms(bytes, built_the_same))
}
