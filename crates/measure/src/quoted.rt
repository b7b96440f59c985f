// The quoted measure. (01: Reading rules, Quoted; `quoted_scalar_len`; P4, S6, S8, F4. 02: (b).)
ghost use Rattle.std.specs.Prelude.{◌≡◌};
ghost use Rattle.measure.specs.Quoted.{passed_together, quoted_len, quoted_measure};

use crate::length::Measure;
pub use letters::letter::{BACKSLASH, SINGLE_QUOTE};
use letters::mark::unmarked;
use utf8::utf8::byte_at;

pub const DOUBLE_QUOTE: u8 = b'"';

// Whether `a` and the byte `b` after it are passed together: `''` in single quotes; in double quotes a backslash and any byte.
#[tactic(auto, unfolding(crate::specs::Quoted::passed_together))]
fn passed_together(quote: u8, a: u8, b: u8) -> bool
    ensures { result ≡ passed_together quote a b }
{
    match quote {
        DOUBLE_QUOTE => a == BACKSLASH,
        SINGLE_QUOTE => a == quote && b == quote,
        _ => false,
    }
}

// The length in bytes of a quoted scalar that stands at the start of `rest`, both marks counted, or None where `rest` does not start with
// `quote` or has no closing one. After an ordinary byte come mostly more, which are passed over at once.
pub fn quoted_scalar_len(rest: &[u8], quote: u8) -> Option<usize>
    ensures { result ≡ quoted_len rest.now quote }
{
    if rest.first() != Some(&quote) {
        return None;
    }
    let mut i = 1;
    while let Some(&b) = rest.get(i) {
        if passed_together(quote, b, byte_at(rest, i + 1)) {
            i += 2;
        } else if b == quote {
            return Some(i + 1);
        } else {
            i += 1;
            i += unmarked(&rest[i..], quote);
        }
    }
    None
}

// The same, or, assumed, the value's length where a mark is missing.
#[tactic(auto, unfolding(crate::specs::Quoted::quoted_measure))]
pub fn quoted_or_value_len(rest: &[u8], value: &[u8], quote: u8) -> Measure
    ensures { result ≡ quoted_measure rest.now value.now quote }
{
    let Some(n) = quoted_scalar_len(rest, quote) else {
        return Measure::assumed(value.len());
    };
    Measure::measured(n)
}
