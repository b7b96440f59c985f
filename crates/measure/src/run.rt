// White-space runs, by code points. (01: "One notion of white space"; W1.)
ghost use Rattle.std.specs.Prelude.{◌≡◌};
ghost use Rattle.utf8.specs.Characters.{codes};
ghost use Rattle.measure.specs.Counted.{run_of};

use utf8::utf8::{Utf8Bytes, first_char};
use utf8::white_space::is_white_space;

// A code point, where the one of `utf8` is a byte.
pub const NEWLINE: u32 = 0xa;

// The white space that a text begins with: its bytes, and whether a newline is among it. By code points: the walk has a run of its own, by
// bytes, which counts other things.
#[derive(Clone, Copy, Debug, PartialEq, Eq)]
pub struct Run {
    pub len: usize,
    pub newline: bool,
}

// The run that `tail` begins with; each of its characters is looked at once.
pub fn white_space_run(tail: Utf8Bytes<'_>) -> Run
    ensures { result ≡ run_of (codes tail.entry.bytes.now) }
{
    let mut len = 0;
    let mut newline = false;
    while let Some(c) = first_char(tail.bytes, len) {
        if !is_white_space(c.code) {
            break;
        }
        newline |= c.code == NEWLINE;
        len += c.len;
    }
    Run { len, newline }
}
