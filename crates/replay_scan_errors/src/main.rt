// Replays the original's places of errors: each case is a text and the marker indices to ask for, which stand in the place of the events,
// four bytes each. The records of the case are the start and the end of each error's span.
#![tactic(auto)]

use node::marker::scan_error;
use parser::answer::Refusal;
use replay::case::{Case, NUMBER_BYTES, case_of, number_at};
use replay::tally::{Verdict, judged};
use replay_accessors::matched::Matcher;
use std::io;

// Whether the error at every index is where the list says, or the refusal is the one that the case says.
fn same_errors(case: Case<'_>) -> bool {
    let mut m = Matcher::new(case.records);
    for index in case.events.chunks(NUMBER_BYTES) {
        let code = match scan_error(case.text, number_at(index, 0)) {
            Ok(span) => {
                m.numbers(&[span.start, span.end]);
                0
            }
            Err(error) => u32::from(Refusal::from(error)),
        };
        if !case.returned.is_some_and(|returned| returned.code == code) {
            return false;
        }
    }
    m.is_whole()
}

fn verdict(bytes: &[u8]) -> Verdict {
    let case = case_of(bytes);
    judged(!case.events.is_empty() && same_errors(case))
}

fn main(rt: HostRuntime) -> io::Result<()> {
    replay::run(&rt, verdict)
}
