// The block measure. (01: Reading rules, Block; `block_scalar_len`; P5, S7.)
ghost use Rattle.std.specs.Prelude.{◌≡◌};
ghost use Rattle.utf8.specs.Characters.{codes};
ghost use Rattle.measure.specs.Block.{block_len};
ghost use Rattle.measure.specs.Counted.{line_of};

use crate::run::NEWLINE;
use letters::letter::letters;
use utf8::utf8::{Utf8Bytes, first_char};
use utf8::white_space::is_white_space;

// A line without its newline, in bytes: its leading white space, up to its last character that is no white space (0 where it is
// blank), and all of it.
#[derive(Clone, Copy, Debug, PartialEq, Eq)]
struct Line {
    lead: usize,
    trimmed: usize,
    len: usize,
}

// The line that a text begins with. Letters are passed over at once, so the loop goes by what it reads. In line, since many lines are short.
#[inline(always)]
fn first_line(tail: Utf8Bytes<'_>) -> Line
    ensures { result ≡ line_of (codes tail.entry.bytes.now) }
{
    let tail = tail.bytes;
    let mut lead = 0;
    let mut trimmed = 0;
    let mut len = 0;
    while let Some(c) = first_char(tail, len) {
        if c.code == NEWLINE {
            break;
        }
        len += c.len;
        if is_white_space(c.code) {
            if trimmed == 0 {
                lead = len;
            }
        } else {
            len += letters(tail, len, tail, len);
            trimmed = len;
        }
    }
    Line { lead, trimmed, len }
}

// The length in bytes of a block scalar whose first content character stands at the start of `rest`, at column `column`: it goes on over
// lines that are blank or indented at least so far, and ends with the last one that is not blank. The loop goes line by line, each as long
// as it is read to be.
pub fn block_scalar_len(rest: Utf8Bytes<'_>, column: usize) -> usize
    ensures { result ≡ block_len rest.entry.bytes.now column }
{
    let first = first_line(rest);
    let mut end = first.trimmed;
    let mut at = first.len + 1;
    while at < rest.bytes.len() {
        let line = first_line(rest.rest_from(at));
        if 0 < line.trimmed {
            if line.lead < column {
                return end;
            }
            end = at + line.trimmed;
        }
        at += line.len + 1;
    }
    end
}
