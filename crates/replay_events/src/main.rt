// Replays a second reader's verdict on event bytes: each case is one event, sound, cut off, overlong or damaged. It is malformed exactly
// where the list says 3 for event 0. Where there are no bytes at all, there is no event to read.
#![tactic(auto)]

use event::read::read_event;
use parser::answer::Refusal;
use replay::case::case_of;
use replay::tally::{Verdict, judged};
use std::io;

fn verdict(bytes: &[u8]) -> Verdict {
    let case = case_of(bytes);
    let malformed = u32::from(Refusal::Malformed);
    let refused = case.returned.filter(|returned| returned.code == malformed);
    if case.events.is_empty() {
        return judged(refused.is_none());
    }
    let sound = read_event(case.events, 0).is_ok();
    judged(sound != refused.is_some_and(|returned| returned.first == 0))
}

fn main(rt: HostRuntime) -> io::Result<()> {
    replay::run(&rt, verdict)
}
