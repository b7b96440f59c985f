// Replays the original's marker offsets: in each case a sequence of aliases over a text, whose span starts are the offsets of their
// markers, taken in turn through one cursor.
#![tactic(auto)]

use replay::case::{Case, case_of, number_at};
use replay::record::{RECORD_BYTES, START_AT};
use replay::tally::{Verdict, judged};
use std::io;
use text::admission::{Text, admit_text};
use text::offset::START;

// The events: a sequence start of 8 bytes, then the aliases, the marker's index behind tag and length, then a sequence end.
const START_BYTES: usize = 8;

const ALIAS_BYTES: usize = 7;

const MARKER_AT: usize = 3;

const END_BYTES: usize = 7;

// Whether the offsets of the aliases' markers are the span starts of the records.
fn same_offsets(text: Text<'_>, aliases: &[u8], records: &[u8]) -> bool {
    let mut cursor = START;
    for (alias, record) in aliases
        .chunks(ALIAS_BYTES)
        .zip(records.chunks(RECORD_BYTES))
    {
        let marker = number_at(alias, MARKER_AT) as usize;
        cursor = text.byte_offset_of_char(cursor, marker);
        if cursor.offset != number_at(record, START_AT) as usize {
            return false;
        }
    }
    true
}

// Whether a case has a record for each alias and then one for the sequence, and the aliases' are the same. A last alias that is cut off is read
// on into the sequence's end.
fn same(case: Case<'_>) -> bool {
    let Ok(text) = admit_text(case.text) else {
        return false;
    };
    let Some((records, _)) = case.records.split_last_chunk::<RECORD_BYTES>() else {
        return false;
    };
    let aliases = case.events.get(START_BYTES..).unwrap_or(&[]);
    let count = aliases
        .len()
        .saturating_sub(END_BYTES)
        .div_ceil(ALIAS_BYTES);
    records.len() % RECORD_BYTES == 0
        && records.len() / RECORD_BYTES == count
        && same_offsets(text, aliases, records)
}

fn verdict(bytes: &[u8]) -> Verdict {
    judged(same(case_of(bytes)))
}

fn main(rt: HostRuntime) -> io::Result<()> {
    replay::run(&rt, verdict)
}
