// Replays the original's tag spans: each record with a tag has the tag's span and the suffix's length.
#![tactic(auto)]

use records::record::ABSENT;
use replay::case::{case_of, number_at};
use replay::record::{RECORD_BYTES, START_AT, SUFFIX_LEN_AT, TAG_AT};
use replay::tally::{Verdict, judged};
use std::io;
use tag::property::{TagSpan, make_tag_info};
use utf8::utf8::{Place, Utf8Bytes, is_boundary};

// Whether the tag of a record, if it has one, is found, or guessed, where the record says.
fn same_tag(text: Utf8Bytes<'_>, record: &[u8]) -> bool {
    let tag_start = number_at(record, TAG_AT);
    if tag_start == ABSENT {
        return true;
    }
    let at = number_at(record, START_AT) as usize;
    if !is_boundary(text.bytes, at) {
        return false;
    }
    let suffix = number_at(record, SUFFIX_LEN_AT) as usize;
    let tag_end = number_at(record, TAG_AT + 4);
    make_tag_info(Place { text, at }, suffix)
        == TagSpan {
            start: tag_start as usize,
            end: tag_end as usize,
        }
}

fn verdict(bytes: &[u8]) -> Verdict {
    let case = case_of(bytes);
    let Some(text) = Utf8Bytes::new(case.text) else {
        return Verdict::Different;
    };
    let mut records = case.records.chunks(RECORD_BYTES);
    judged(records.all(|record| same_tag(text, record)))
}

fn main(rt: HostRuntime) -> io::Result<()> {
    replay::run(&rt, verdict)
}
