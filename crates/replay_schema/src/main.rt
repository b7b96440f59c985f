// Replays the original's resolution of scalars: each case is one scalar, whose record has its kind and payload.
#![tactic(auto)]

use event::read::{Event, read_event};
use event::string::Part;
use replay::case::{Case, bytes_at, case_of, number_at};
use replay::record::{KIND_AT, PAYLOAD_AT};
use replay::tally::{Verdict, judged};
use schema::record::{kind_number, payload_of};
use schema::tag::{Tag, resolve_scalar};
use std::io;

// Whether the first event is a scalar, and the record has the kind and the payload of what it is.
fn same_scalar(case: Case<'_>) -> bool {
    let Ok(
        (
            Event::Scalar {
                style,
                tag,
                value,
                ..
            },
            _,
        ),
    ) = read_event(case.events, 0)
    else {
        return false;
    };
    let (Ok(place), Ok(len)) = (u32::try_from(value.at), u32::try_from(value.len)) else {
        return false;
    };
    let bytes = |part: Part| bytes_at(case.events, part.at, part.len);
    let tag = tag.map(|tag| Tag {
        handle: bytes(tag.handle),
        suffix: bytes(tag.suffix),
    });
    let resolved = resolve_scalar(bytes(value), style.into(), tag);
    let payload = payload_of(resolved, place, len);
    kind_number(resolved) == number_at(case.records, KIND_AT)
        && payload.first == number_at(case.records, PAYLOAD_AT)
        && payload.second == number_at(case.records, PAYLOAD_AT + 4)
}

fn verdict(bytes: &[u8]) -> Verdict {
    judged(same_scalar(case_of(bytes)))
}

fn main(rt: HostRuntime) -> io::Result<()> {
    replay::run(&rt, verdict)
}
