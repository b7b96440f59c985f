// The plain measure. (01: Reading rules, Plain; `plain_scalar_len`; P3, S5, F6. 02: (b).)
ghost use Rattle.std.specs.Prelude.{◌≡◌};
ghost use Rattle.measure.specs.Plain.{plain_measure, is_fold};

use crate::length::Measure;
use crate::run::{NEWLINE, white_space_run};
use letters::letter::letters;
use utf8::utf8::{Utf8Bytes, first_char};

// A code point, where the one of `utf8` is a byte.
const BLANK: u32 = 0x20;

// Whether a character of a value can stand for a folded line break. The walk asks it of a byte.
#[tactic(auto, unfolding(crate::specs::Plain::is_fold))]
fn is_fold(code: u32) -> bool
    ensures { result ≡ is_fold code }
{
    code == BLANK || code == NEWLINE
}

// The length in bytes of a plain scalar that stands at the start of `rest`: up to the last character that is equal in the value, or,
// assumed, the value's own length where the two do not line up.
//
// `at` and `v` are how far the rest and the value are matched. The first unequal byte ends the whole measure: its break leaves both loops
// with the value's length. `known` is where the white space that was last looked at ends: no newline stands before it, so it is not looked
// at again. After an equal character come mostly letters, which are passed over at once. The two loops and the labelled break are a rule of
// the project (F6).
pub fn plain_scalar_len(rest: Utf8Bytes<'_>, value: Utf8Bytes<'_>) -> Measure
    ensures { result ≡ plain_measure rest.entry.bytes.now value.entry.bytes.now }
{
    let (text, value) = (rest.bytes, value.bytes);
    let mut at = 0;
    let mut end = 0;
    let mut known = 0;
    let mut v = 0;
    'characters: loop {
        let Some(c) = first_char(value, v) else {
            break Measure::measured(end);
        };
        if known <= at && is_fold(c.code) {
            let run = white_space_run(rest.rest_from(at));
            if run.newline {
                at += run.len;
                v += c.len;
                continue;
            }
            known = at + run.len;
        }
        for (k, b) in value[v..v + c.len].iter().enumerate() {
            if text.get(at + k) != Some(b) {
                break 'characters Measure::assumed(value.len());
            }
        }
        at += c.len;
        v += c.len;
        let n = letters(text, at, value, v);
        at += n;
        v += n;
        end = at;
    }
}
