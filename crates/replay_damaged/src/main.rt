// Replays a second reader of records on buffers that were damaged or never built: the text of a case is the buffer, four bytes a number,
// read by every accessor at every record number of it, two past it and two far off. The records of the case are the answers, its pieces
// are the keys to ask for, in its event bytes.
#![tactic(auto)]

use node::child::{child_before, child_from_last, record_before};
use node::entry::pair_ending;
use records::record::RECORD_WIDTH;
use replay::case::{Case, NUMBER_BYTES, case_of, in_room, number_at};
use replay::tally::{Verdict, verdict_of};
use replay_accessors::matched::Matcher;
use replay_accessors::questions::{Subject, at_index};
use std::io;

// How far from the last child, or from the count of children, is asked.
const LIMIT: usize = 3;

// Record numbers and indices that no buffer has. Fourteen times the first is 12 and a multiple of 2^64.
const FAR: usize = 0x1249_2492_4924_924a;

const FARTHEST: usize = usize::MAX;

// The single steps from record `n`, and the first and the farthest index.
fn same_steps(records: &[u32], n: usize, m: &mut Matcher<'_>) {
    m.place(record_before(records, n));
    m.place(child_before(records, n));
    m.entry(pair_ending(records, n));
    for k in 0..=LIMIT {
        m.place(child_from_last(records, n, k));
    }
    at_index(records, n, 0, m);
    at_index(records, n, FARTHEST, m);
}

// Whether the accessors answer on this buffer what the case says.
fn read_the_same(case: Case<'_>, records: &[u32]) -> bool {
    let mut m = Matcher::new(case.records);
    let subject = Subject {
        records,
        events: case.events,
        keys: case.pieces,
    };
    let end = records.len() / RECORD_WIDTH + 2;
    for n in (0..end).chain([FAR, FARTHEST]) {
        subject.about(n, LIMIT, &mut m);
        same_steps(records, n, &mut m);
    }
    m.is_whole()
}

// Reads the buffer of a case into this one, which is as long, and asks all.
fn same_in(case: Case<'_>, records: &mut [u32]) -> bool {
    for (i, n) in records.iter_mut().enumerate() {
        *n = number_at(case.text, i * NUMBER_BYTES);
    }
    read_the_same(case, records)
}

// The buffer is as long as the case says, also where its text is cut off.
fn verdict(bytes: &[u8]) -> Verdict {
    let case = case_of(bytes);
    let len = number_at(bytes, 0) as usize / NUMBER_BYTES;
    let same = in_room(len, |records| same_in(case, records));
    verdict_of(case, same)
}

fn main(rt: HostRuntime) -> io::Result<()> {
    replay::run(&rt, verdict)
}
