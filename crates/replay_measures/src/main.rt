// Replays the original's spans of scalars: each case is one scalar, whose record has its span.
#![tactic(auto)]

use event::read::{Event, read_event};
use measure::scalar::scalar_len;
use replay::case::{Case, bytes_at, case_of, number_at};
use replay::record::{END_AT, START_AT};
use replay::tally::{Verdict, verdict_of};
use std::io;
use utf8::utf8::Utf8Bytes;

// Whether the first event is a scalar whose span is the record's. A start that the text does not have has no length.
fn same_span(case: Case<'_>) -> bool {
    let Ok(
        (
            Event::Scalar {
                column,
                style,
                empty_span,
                value,
                ..
            },
            _,
        ),
    ) = read_event(case.events, 0)
    else {
        return false;
    };
    let start = number_at(case.records, START_AT) as usize;
    let end = number_at(case.records, END_AT) as usize;
    let Some(rest) = case.text.get(start..).and_then(Utf8Bytes::new) else {
        return false;
    };
    let Some(value) = Utf8Bytes::new(bytes_at(case.events, value.at, value.len)) else {
        return false;
    };
    let len = scalar_len(rest, value, style.into(), empty_span, column as usize).len;
    end.checked_sub(start) == Some(len)
}

fn verdict(bytes: &[u8]) -> Verdict {
    let case = case_of(bytes);
    verdict_of(case, Some(same_span(case)))
}

fn main(rt: HostRuntime) -> io::Result<()> {
    replay::run(&rt, verdict)
}
