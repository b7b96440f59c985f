// The call on one scalar. (01: the table's last lines; RS, RZ, B1. 02: (c).)
ghost use Rattle.std.specs.Prelude.{◌≡◌, ◌≤◌, length};
ghost use Rattle.style.specs.Style.{folded};
ghost use Rattle.provenance.specs.Layout.{zeros};
ghost use Rattle.records.specs.Layout.{pieces_limit};
ghost use Rattle.spans.specs.Scalar.{mark, mark_of};
ghost use Rattle.parser.specs.Call.{one_scalar, DeliveredScalar, PromisedScalar};
ghost use Rattle.parser.specs.Held.{Counted, alone_answer};

use crate::answer::{Refusal, Scalar};
use provenance::walk::Walked;
use provenance::write::clear;
use records::buffer::usable;
use records::record::NO_TAG;
use schema::tag::resolve_scalar;
use spans::scalar::{ScalarEntry, ScalarMark, walk_scalar};
use style::Style;
use text::admission::{Admitted, AdmittedPlace, Text, admit_text_and_value};
use text::offset::START;

// What the call on the scalar `x` answers, by its walk.
fn alone(x: ScalarEntry) -> Result<Scalar, Refusal>
    requires { Counted 0 x.walked }
    ensures { result ≡ alone_answer x }
{
    match x.walked {
        Walked::NoRoom => Err(Refusal::NoPieceRoom),
        Walked::NoList => Ok(Scalar {
            node: x.node,
            pieces: 0,
        }),
        Walked::Listed(n) => Ok(Scalar {
            node: x.node.with_list(0, n as u32),
            pieces: n,
        }),
    }
}

// One scalar of an admitted text, its value admitted too, into a buffer that is zero.
fn one_scalar(
    text: Text<'_>,
    m: ScalarMark,
    value: Admitted<'_>,
    pieces: &mut [u32],
) -> Result<Scalar, Refusal>
    requires style_known { m.style ≤ folded }
    requires pieces_zero { (pieces.old ≡ zeros (length pieces.old)) × (length pieces.old ≤ pieces_limit) }
    ensures { DeliveredScalar (length pieces.old) (one_scalar text.entry.content.bytes.now (mark_of m) value.entry.bytes.now (length pieces.old)) result pieces.new }
{
    let cursor = text.byte_offset_of_char(START, m.index as usize);
    let resolved = resolve_scalar(value.bytes, m.style, None);
    let start = AdmittedPlace {
        text: text.content,
        at: cursor.offset,
    };
    alone(walk_scalar(start, m, value, 0, NO_TAG, resolved, pieces))
}

// One scalar, given as its event would give it: it awaits nothing, has no tag, and its value has the place 0. What it answers, the record
// and every number of the buffer afterwards is `scalar_call`; on a refusal the buffer is zero. The style is a number, since the call
// refuses those that no style has.
pub fn scalar(
    text: &[u8],
    index: u32,
    column: u32,
    style: u8,
    empty: bool,
    value: &[u8],
    pieces: &mut [u32],
) -> Result<Scalar, Refusal>
    ensures { PromisedScalar text.now (mark index column style empty) value.now pieces.old result pieces.new }
{
    clear(pieces);
    let (text, value) = admit_text_and_value(text, value)?;
    let style = Style::try_from(style)?;
    let m = ScalarMark {
        index,
        column,
        style: style.into(),
        empty,
    };
    let n = usable(pieces.len());
    one_scalar(text, m, value, &mut pieces[..n])
}
