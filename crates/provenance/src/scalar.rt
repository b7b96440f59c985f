// The pieces of one scalar. (01: `compute_scalar_provenance`; N1, S13, S14, F3.)
ghost use Rattle.std.specs.Prelude.{◌≡◌, ◌+◌, ◌≤◌, length};
ghost use Rattle.text.specs.Admission.{text_limit};
ghost use Rattle.provenance.specs.Layout.{room, zeros, answer_of, buffer_of};
ghost use Rattle.provenance.specs.Start.{scalar_list};

use crate::start::walk_start;
use crate::step::Walk;
use crate::walk::Walked;
use style::Style;
use utf8::utf8::is_boundary;

// Leaves the pieces of a scalar that starts at `start` and spans `len` bytes in a buffer that is lent zero, from its entry 0. On no
// list and on no room the buffer is zero again.
pub fn scalar_provenance(
    text: &[u8],
    start: usize,
    len: usize,
    value: &[u8],
    style: u8,
    column: usize,
    pieces: &mut [u32],
) -> Walked
    requires short { (length text.now ≤ text_limit) × (length value.now ≤ text_limit) }
    requires inside { start + len ≤ length text.now }
    requires pieces_zero { pieces.old ≡ zeros (length pieces.old) }
    ensures value { result ≡ answer_of (room (length pieces.old)) (scalar_list text.now start len value.now style column) }
    ensures pieces_after { pieces.new ≡ buffer_of (length pieces.old) (scalar_list text.now start len value.now style column) }
{
    let first = walk_start(text, start, len, value, style);
    if !is_boundary(text, first) {
        return Walked::NoList;
    }
    let walk = Walk {
        src: &text[first..],
        value,
        style: Style::of(style),
        column,
    };
    walk.walk_scalar_provenance(first, pieces)
}
