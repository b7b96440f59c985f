// Escapes: how many source bytes one takes, and how many content bytes it stands for. (01: `escape_len`; Piece grammar, step 2; P7.)
ghost use Rattle.std.specs.Prelude.{◌≡◌, ◌≤◌, ◌<◌, IfSome, length, get_or};
ghost use Rattle.style.specs.Style.{style_number};
ghost use Rattle.provenance.specs.Escape.{digits, radix16, code_content, is_one_of, one_byte_escapes, single_quote_escapes, backslash_escape, double_quote_escapes, escapes_of};

use crate::run::white_run;
use letters::letter::{BACKSLASH, SINGLE_QUOTE};
use style::Style;
use utf8::class::{CARRIAGE_RETURN, NEWLINE};
use utf8::utf8::byte_at;

// An escape takes so many source bytes and stands for so many content bytes. It is never compared with the value. (W2.)
#[derive(Clone, Copy, Debug, PartialEq, Eq)]
pub struct Escape {
    pub source: usize,
    pub content: usize,
}

const PLUS: u8 = b'+';

const LETTER_U: u8 = b'u';

const LETTER_X: u8 = b'x';

const ONE_BYTE_ESCAPES: [u8; 9] = *b"ntr0ab\"\\/";

fn is_one_byte_escape(c: u8) -> bool
    ensures { result ≡ is_one_of one_byte_escapes c }
{
    ONE_BYTE_ESCAPES.contains(&c)
}

// The content of a code: its character's bytes, 1 for a surrogate and for no code.
#[tactic(auto, unfolding(crate::specs::Escape::code_content, utf8::specs::Utf8::encode))]
fn code_content(code: Option<u32>) -> usize
    requires { IfSome code (λ c. c < 0x1_0000) }
    ensures { result ≡ code_content code }
{
    code.and_then(char::from_u32).map_or(1, char::len_utf8)
}

// The number of at least one and at most four digits, if they can be read.
fn digits(tail: &[u8]) -> Option<u32>
    requires { length tail.now ≤ 4 }
    ensures value { result ≡ digits tail.now }
    ensures four { IfSome result (λ c. c < 0x1_0000) }
{
    if tail.is_empty() {
        return None;
    }
    let mut code = 0;
    for &b in tail {
        code = code * 16 + char::from(b).to_digit(16)?;
    }
    Some(code)
}

// The number of the bytes after `\u`, at most four of them, as `from_str_radix` reads it: a plus may stand before the digits.
#[tactic(auto, unfolding(crate::specs::Escape::radix16, crate::specs::Escape::digits))]
fn radix16(tail: &[u8]) -> Option<u32>
    requires { length tail.now ≤ 4 }
    ensures value { result ≡ radix16 tail.now }
    ensures four { IfSome result (λ c. c < 0x1_0000) }
{
    match tail {
        [PLUS, after @ ..] => digits(after),
        _ => digits(tail),
    }
}

// An escape in double quotes: `after` begins behind the backslash.
#[tactic(auto, using(crate::specs::RunLaws::run_within), unfolding(crate::specs::Escape::backslash_escape, crate::specs::Counted::counted_run))]
fn backslash_escape(after: &[u8]) -> Option<Escape>
    ensures { result ≡ backslash_escape (get_or after.now 0 0) after.now }
{
    let (source, content) = match byte_at(after, 0) {
        c if is_one_byte_escape(c) => (2, 1),
        LETTER_X => (4, 1),
        LETTER_U => (6, code_content(radix16(&after[1..after.len().min(5)]))),
        NEWLINE | CARRIAGE_RETURN => (1 + white_run(after).len, 0),
        _ => return None,
    };
    Some(Escape { source, content })
}

// An escape in single quotes: two quotes.
#[tactic(auto, unfolding(crate::specs::Escape::single_quote_escapes))]
fn single_quote_escape(tail: &[u8]) -> Option<Escape>
    ensures { result ≡ single_quote_escapes tail.now }
{
    match tail {
        [SINGLE_QUOTE, SINGLE_QUOTE, ..] => Some(Escape {
            source: 2,
            content: 1,
        }),
        _ => None,
    }
}

// An escape in double quotes.
#[tactic(auto, unfolding(crate::specs::Escape::double_quote_escapes))]
fn double_quote_escape(tail: &[u8]) -> Option<Escape>
    ensures { result ≡ double_quote_escapes tail.now }
{
    match tail {
        [BACKSLASH, after @ ..] => backslash_escape(after),
        _ => None,
    }
}

// The escape that a source of this style begins with.
#[tactic(auto, unfolding(crate::specs::Escape::escapes_of))]
pub(crate) fn escape_of(tail: &[u8], style: Style) -> Option<Escape>
    ensures { result ≡ escapes_of (style_number style) tail.now }
{
    match style {
        Style::SingleQuoted => single_quote_escape(tail),
        Style::DoubleQuoted => double_quote_escape(tail),
        Style::Plain | Style::Literal | Style::Folded => None,
    }
}

// The same by any number for the style.
#[tactic(auto, unfolding(crate::specs::Escape::escapes_of))]
pub fn escape_len(tail: &[u8], style: u8) -> Option<Escape>
    ensures { result ≡ escapes_of style tail.now }
{
    escape_of(tail, Style::of(style))
}
