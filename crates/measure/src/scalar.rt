// The choice by style, and the cut to the text left. (01: Reading rules; S4, S8. 02: (b).)
ghost use Rattle.std.specs.Prelude.{◌≡◌};
ghost use Rattle.measure.specs.Scalar.{scalar_measure};

use crate::block::block_scalar_len;
use crate::length::Measure;
use crate::plain::plain_scalar_len;
use crate::quoted::{DOUBLE_QUOTE, SINGLE_QUOTE, quoted_or_value_len};
use style::Style;
use utf8::utf8::Utf8Bytes;

// The length in bytes of a scalar of any style that stands at the start of `rest`, cut to the text left, and whether it was measured. A
// block is always measured, on an empty span too.
#[tactic(auto, unfolding(crate::specs::Scalar::scalar_measure, crate::specs::Scalar::style_measure, crate::specs::Scalar::block_measure))]
pub fn scalar_len(
    rest: Utf8Bytes<'_>,
    value: Utf8Bytes<'_>,
    style: u8,
    empty: bool,
    column: usize,
) -> Measure
    ensures { result ≡ scalar_measure rest.entry.bytes.now value.entry.bytes.now style empty column }
{
    let found = match Style::of(style) {
        Style::Plain => plain_scalar_len(rest, value),
        Style::SingleQuoted => quoted_or_value_len(rest.bytes, value.bytes, SINGLE_QUOTE),
        Style::DoubleQuoted => quoted_or_value_len(rest.bytes, value.bytes, DOUBLE_QUOTE),
        Style::Literal | Style::Folded if empty => Measure::measured(0),
        Style::Literal | Style::Folded => Measure::measured(block_scalar_len(rest, column)),
    };
    Measure {
        len: found.len.min(rest.bytes.len()),
        ..found
    }
}
