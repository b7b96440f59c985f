// Bytes that are passed over many at a time. (01: Reading rules; Piece grammar, step 3.)
//
// Most text is letters: bytes that are equal in the text and in the value, that are no white space but for a blank before a word, and that
// mean nothing else in any style. They are told chunk by chunk. The source and the value, and the bytes `b` and `c`, are parameters side by
// side: a pair of them would be made anew at each call.
ghost use Rattle.std.specs.Prelude.{◌≡◌, ◌+◌, ◌-◌, ◌≤◌, ◌<◌, true, not, ◌&&◌, eqb, length, get_or};
ghost use Rattle.utf8.specs.Class.{is_continuation};
ghost use Rattle.letters.specs.Letters;

use crate::chunk::passing;
use utf8::class::{BLANK, is_continuation};
use utf8::utf8::byte_at;

// The bytes that are looked at together.
const CHUNK: u8 = 16;

pub const SINGLE_QUOTE: u8 = b'\'';

pub const BACKSLASH: u8 = b'\\';

// White space in two and three bytes begins with C2, with E1, with E2 and 80 or 81, or with E3 80 80.
const LEAD_C2: u8 = 0xc2;

const LEAD_E1: u8 = 0xe1;

const LEAD_E2: u8 = 0xe2;

const LEAD_E3: u8 = 0xe3;

const FIRST_CONTINUATION: u8 = 0x80;

// Whether no white space can begin with `b`, before `c`. Its tests are joined by `&` and `|`, so that none ends the others: with an early
// end a chunk takes 0.58 to 0.75 ns a byte against 0.53.
fn begins_word(b: u8, c: u8) -> bool
    ensures { result ≡ true → Letters.WordByte b c }
{
    !matches!(b, 0..=BLANK | FIRST_CONTINUATION..=LEAD_C2 | LEAD_E1)
        & ((b != LEAD_E2) | (0x81 < c))
        & ((b != LEAD_E3) | (c != FIRST_CONTINUATION))
}

// Whether E2, before `b` and `c`, is a letter.
fn is_letter_e2(b: u8, c: u8) -> bool
    ensures { result ≡ true → Letters.AfterE2 b c }
{
    0x81 < b || b != 0x81 && 0x8a < c && c < 0xa8
}

// Whether `a`, before the bytes `b` and `c`, is a letter.
fn is_letter(a: u8, b: u8, c: u8) -> bool
    ensures { result ≡ true → Letters.LetterByte a b c }
{
    match a {
        SINGLE_QUOTE | BACKSLASH | LEAD_C2 | LEAD_E1 => false,
        BLANK => begins_word(b, c),
        LEAD_E2 => is_letter_e2(b, c),
        LEAD_E3 => b != FIRST_CONTINUATION || c != FIRST_CONTINUATION,
        _ => BLANK < a,
    }
}

// How many equal letters the source and the value begin with, as far as whole chunks go.
fn letter_chunks(src: &[u8], value: &[u8]) -> usize
    ensures { Letters.LetterRun src.now value.now result }
{
    // The last letter of a chunk is told with the two bytes after it.
    let chunks = src.len().saturating_sub(2).min(value.len()) / usize::from(CHUNK);
    passing::<CHUNK, _>(
        chunks,
        |i|
            requires { (i + 2 < length src.now) × (i < length value.now) }
            ensures { result ≡ true → Letters.LetterAt src.entry.now value.entry.now i }
        { is_letter(src[i], src[i + 1], src[i + 2]) & (src[i] == value[i]) },
    )
}

// How many equal letters the source and the value begin with.
fn letter_run(src: &[u8], value: &[u8]) -> usize
    ensures { Letters.LetterRun src.now value.now result }
{
    let end = src.len().min(value.len());
    for i in letter_chunks(src, value)..end {
        if src[i] != value[i] || !is_letter(src[i], byte_at(src, i + 1), byte_at(src, i + 2)) {
            return i;
        }
    }
    end
}

// Whether the place `n` is between two characters and not behind a blank. Its bounds are those of an index into a slice, as slices ask for
// them.
fn ends_word(src: &[u8], n: usize) -> bool
    requires { (0 < n) × (n ≤ length src.now) }
    ensures { result ≡ not (is_continuation (get_or src.now n 0)) && not (eqb (get_or src.now (n - 1) 0) 32) }
{
    !is_continuation(byte_at(src, n)) && src[n - 1] != BLANK
}

// How many equal letters the source and the value begin with, up to the end of a word.
fn words(src: &[u8], value: &[u8]) -> usize
    ensures { Letters.Letters src.now value.now result }
{
    (1..=letter_run(src, value))
        .rev()
        .find(|&n| ends_word(src, n))
        .unwrap_or(0)
}

// The same from the place `s` of the source and the place `v` of the value on: places and not parts, since its callers hold places. Their
// bounds are those of an index into a slice, as slices ask for them.
pub fn letters(src: &[u8], s: usize, value: &[u8], v: usize) -> usize
    requires { (s ≤ length src.now) × (v ≤ length value.now) }
    ensures { Letters.LettersFrom src.now s value.now v result }
{
    words(&src[s..], &value[v..])
}
