// Replays the original's accessors: each case is a document, built in buffers of the case's rooms and then read by every accessor at
// every record and the one past the last. The records of the case are the answers, its pieces are the keys to ask for. What the original
// does not say, the parent and whether a span was measured, the oracle's second implementations do.
#![tactic(auto)]

use node::child::{child_before, child_count, child_from_last, last_child, record_before};
use node::entry::pair_ending;
use node::record::get_record;
use parser::answer::{Built, Refused};
use parser::build::build;
use replay::case::{Case, Returned};
use replay::tally::verdict_in_rooms;
use replay_accessors::matched::Matcher;
use replay_accessors::questions::{Subject, is_hash_there};
use std::io;

// How many children of a collection are asked for by index: a limit as any other, which no count of them reaches.
const LIMIT: usize = usize::MAX;

// Child `child` of `n`, with `after` children after it: asked by that number too, and a value for its pair.
fn same_child(records: &[u32], n: usize, child: Option<usize>, after: usize, m: &mut Matcher<'_>) {
    m.place(child);
    m.place(child_from_last(records, n, after));
    let Some(c) = child else {
        m.differ();
        return;
    };
    if is_hash_there(records, n) && after % 2 == 0 {
        m.entry(pair_ending(records, c));
    }
}

// The children of `n` from the last to the first.
fn same_children(records: &[u32], n: usize, m: &mut Matcher<'_>) {
    let mut child = last_child(records, n);
    let count = get_record(records, n).map_or(0, child_count);
    for after in 0..count {
        same_child(records, n, child, after, m);
        child = child.and_then(|c| child_before(records, c));
    }
}

// Whether the accessors answer on so many nodes what the list says: each record, and the one past the last.
fn read_the_same(subject: Subject<'_>, nodes: usize, list: &[u8]) -> bool {
    let mut m = Matcher::new(list);
    m.place(record_before(subject.records, nodes));
    for n in 0..=nodes {
        subject.about(n, LIMIT, &mut m);
        same_children(subject.records, n, &mut m);
    }
    m.is_whole()
}

// Builds the document of a case in these buffers and reads it. What is returned is written as in `replay_trees`: a crate between would be
// no plainer.
fn built_the_same(case: Case<'_>, records: &mut [u32], pieces: &mut [u32]) -> bool {
    match build(case.text, case.events, records, pieces) {
        Ok(Built { nodes, pieces }) => {
            let returned = Returned {
                code: 0,
                first: nodes,
                second: pieces,
            };
            let subject = Subject {
                records,
                events: case.events,
                keys: case.pieces,
            };
            case.returned == Some(returned) && read_the_same(subject, nodes, case.records)
        }
        Err(Refused { refusal, place }) => {
            let returned = Returned {
                code: u32::from(refusal),
                first: place,
                second: 0,
            };
            case.returned == Some(returned)
        }
    }
}

fn main(rt: HostRuntime) -> io::Result<()> {
    replay::run(&rt, |bytes| verdict_in_rooms(bytes, built_the_same))
}
