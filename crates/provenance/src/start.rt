// Where a scalar's walk starts. (01: "The walk starts"; `at_empty_block_header`; S14.)
ghost use Rattle.std.specs.Prelude.{◌≡◌, ◌+◌, ◌≤◌, length};
ghost use Rattle.style.specs.Style.{style_number};
ghost use Rattle.provenance.specs.Start.{is_quoted, is_header, at_empty_block_header, header_end, walk_start};

use crate::run::only_newlines;
use style::Style;
use utf8::class::NEWLINE;
use utf8::utf8::byte_at;

const LITERAL_HEADER: u8 = b'|';

const FOLDED_HEADER: u8 = b'>';

fn is_quoted(style: Style) -> bool
    ensures { result ≡ is_quoted (style_number style) }
{
    matches!(style, Style::SingleQuoted | Style::DoubleQuoted)
}

fn is_header(b: u8) -> bool
    ensures { result ≡ is_header b }
{
    b == LITERAL_HEADER || b == FOLDED_HEADER
}

// Whether `rest` begins with the header of a block scalar whose value is only newlines.
#[tactic(auto, unfolding(crate::specs::Start::at_empty_block_header))]
pub fn at_empty_block_header(rest: &[u8], value: &[u8]) -> bool
    ensures { result ≡ at_empty_block_header rest.now value.now }
{
    is_header(byte_at(rest, 0)) && only_newlines(value)
}

// Where the header line's newline stands, or `len` if there is none.
fn header_end(rest: &[u8], len: usize) -> usize
    ensures { result ≡ header_end rest.now len }
{
    rest.iter().position(|&b| b == NEWLINE).unwrap_or(len)
}

// The first byte of the walk of a scalar that starts at `start` and spans `len` bytes. It may lie past the text or inside a character.
#[tactic(auto, unfolding(crate::specs::Start::walk_start))]
pub fn walk_start(text: &[u8], start: usize, len: usize, value: &[u8], style: u8) -> usize
    requires { start + len ≤ length text.now }
    ensures { result ≡ walk_start text.now start len value.now style }
{
    let style = Style::of(style);
    if is_quoted(style) {
        return start + 1;
    }
    let rest = &text[start..];
    if style.is_block() && at_empty_block_header(rest, value) {
        start + header_end(rest, len)
    } else {
        start
    }
}
