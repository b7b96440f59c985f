// Marker offsets: from a character index to a byte offset. (01: `byte_offset_of_char`; P1, K1.)
ghost use Rattle.std.specs.Prelude.{◌≡◌, ◌≤◌, length, take};
ghost use Rattle.utf8.specs.Utf8.{is_ascii};
ghost use Rattle.utf8.specs.Characters.{codes};
ghost use Rattle.utf8.specs.Boundary.{Boundary};
ghost use Rattle.text.specs.Offset.{byte_offset, cursor_at, Stands};
ghost use Rattle.text.specs.Starts;

use crate::admission::Text;
use utf8::class::is_continuation;
use utf8::utf8::{Place, Utf8Bytes};

// How many characters lie before a place of the text, and the place's byte offset.
#[derive(Clone, Copy, Debug, PartialEq, Eq)]
pub struct Cursor {
    pub chars: usize,
    pub offset: usize,
}

// The cursor at the start of any text.
pub const START: Cursor = Cursor {
    chars: 0,
    offset: 0,
};

// Bytes whose characters are counted together. No more characters than bytes begin among them.
const CHUNK: usize = 32;

// 1 where a character begins with `b`, 0 where one goes on.
fn begun(b: u8) -> u8
    ensures { result ≡ Starts.begun b }
{
    u8::from(!is_continuation(b))
}

// How many characters begin among the bytes, in a byte, so that the compiler adds many at once: by `filter` and `count` it takes nearly
// twice as long.
fn char_starts(s: &[u8]) -> u8
    requires { length s.now ≤ 255 }
    ensures { result ≡ Starts.starts s.now }
{
    let mut n = 0;
    for &b in s {
        n += begun(b);
    }
    n
}

// The next place between two characters, from `i` on. Its bound is that of an index into a slice, as slices ask for it.
fn next_boundary(s: &[u8], i: usize) -> usize
    requires { i ≤ length s.now }
    ensures { Boundary s.now result × (Starts.starts (take result s.now) ≡ Starts.starts (take i s.now)) }
{
    match s[i..].iter().position(|&b| !is_continuation(b)) {
        Some(more) => i + more,
        None => s.len(),
    }
}

// A cursor that stands in its text, of which is known whether it is ASCII. It holds the parts and no `Text`, since the text may be of any
// length: see `byte_offset_of_char` below.
#[derive(Clone, Copy)]
struct Standing<'a> {
    text: Utf8Bytes<'a>,
    ascii: bool,
    cursor: Cursor,
    ghost ascii_value: { ascii ≡ is_ascii text.bytes.now },
    ghost counted: { cursor.chars ≤ length (codes text.bytes.now) },
    ghost placed: { cursor.offset ≡ byte_offset text.bytes.now cursor.chars },
}

impl Standing<'_> {
    // Moved on over whole chunks, as long as they end before the character index `target`.
    fn over_chunks(self, target: usize) -> Cursor
        requires { self.cursor.chars ≤ target }
        ensures { Stands self.entry.text.bytes.now result.chars result.offset × (result.chars ≤ target) }
    {
        if target - self.cursor.chars < CHUNK {
            return self.cursor;
        }
        let text = self.text.bytes;
        let mut chars = self.cursor.chars;
        let mut offset = self.cursor.offset;
        for chunk in text[offset..].chunks_exact(CHUNK) {
            if target - chars < CHUNK {
                break;
            }
            chars += char_starts(chunk) as usize;
            offset += CHUNK;
        }
        Cursor {
            chars,
            offset: next_boundary(text, offset),
        }
    }

    // Moved on to the character index `target`, or to the text's end where that comes first.
    fn forward(self, target: usize) -> Cursor
        requires { self.cursor.chars ≤ target }
        ensures { result ≡ cursor_at self.entry.text.bytes.now target }
    {
        let text = self.text;
        let near = self.over_chunks(target);
        let mut offset = near.offset;
        for chars in near.chars..target {
            if text.bytes.len() <= offset {
                return Cursor { chars, offset };
            }
            offset += Place { text, at: offset }.char_len();
        }
        Cursor {
            chars: target,
            offset,
        }
    }

    // Moved back to the character index `target`.
    fn backward(self, target: usize) -> Cursor
        requires { target ≤ self.cursor.chars }
        ensures { result ≡ cursor_at self.entry.text.bytes.now target }
    {
        let text = self.text;
        let mut offset = self.cursor.offset;
        for _ in target..self.cursor.chars {
            offset = Place { text, at: offset }.last_start();
        }
        Cursor {
            chars: target,
            offset,
        }
    }

    // At the character index `target`, or at the text's end where that comes first. It moves by chunks and then by one character a step;
    // an ASCII text needs no step.
    fn moved_to(self, target: usize) -> Cursor
        ensures { result ≡ cursor_at self.entry.text.bytes.now target }
    {
        if self.ascii {
            let place = target.min(self.text.bytes.len());
            return Cursor {
                chars: place,
                offset: place,
            };
        }
        if self.cursor.chars < target {
            return self.forward(target);
        }
        self.backward(target)
    }

    // Moves the cursor to the character index `target`, or to the text's end where that comes first, and gives the byte offset there.
    // (01: Forms that stand in the way, the cursor.)
    fn move_to(&mut self, target: usize) -> usize
        ensures { (self.new.cursor ≡ cursor_at self.old.text.bytes.now target)
            × (result ≡ (cursor_at self.old.text.bytes.now target).offset) }
    {
        self.cursor = self.moved_to(target);
        self.cursor.offset
    }
}

// The cursor at the character index `target`, or at the text's end where that comes first, from wherever it stood: it is lent to
// `move_to` and handed back. It takes UTF-8 of any length, where a `Text` is within the limit: a narrower type would ask more of its
// callers.
pub fn byte_offset_of_char(
    text: Utf8Bytes<'_>,
    ascii: bool,
    cursor: Cursor,
    target: usize,
) -> Cursor
    requires ascii_value { ascii ≡ is_ascii text.bytes.now }
    requires stands { Stands text.bytes.now cursor.chars cursor.offset }
    ensures { result ≡ cursor_at text.entry.bytes.now target }
{
    let mut standing = Standing {
        text,
        ascii,
        cursor,
    };
    standing.move_to(target);
    standing.cursor
}

impl Text<'_> {
    // The same in an admitted text.
    pub fn byte_offset_of_char(self, cursor: Cursor, target: usize) -> Cursor
        requires { Stands self.content.bytes.now cursor.chars cursor.offset }
        ensures { result ≡ cursor_at self.entry.content.bytes.now target }
    {
        byte_offset_of_char(self.content.utf8(), self.ascii, cursor, target)
    }
}
