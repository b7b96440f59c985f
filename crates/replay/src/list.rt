// A whole list, judged case by case.
use crate::stream::next_case;
use crate::tally::{START, Verdict};
use std::io;

// The largest case that there is room for, in bytes.
const SPACE: usize = 65536;

// Judges every case of the list on standard input, and prints how many came to what: that is all it does, so that there is nothing to
// promise. A loop over what is left: `fewer_left` says by that count that a run ends.
pub fn run<R: Input + Print, F: Fn(&[u8]) -> Verdict>(rt: &R, verdict: F) -> io::Result<()>
    requires { F.IsAlwaysCallable verdict }
{
    let mut list = rt.reader();
    let mut space = [0u8; SPACE];
    let mut tally = START;
    while 0 < tally.left {
        let read = next_case(&mut list, &mut space);
        tally.after(read.map(|case| case.map(|bytes| verdict(bytes))));
    }
    print!(rt; "{tally}")
}
