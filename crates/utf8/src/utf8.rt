// UTF-8: the test of a text, and its characters forward and back.
ghost use Rattle.std.specs.Prelude.{◌≡◌, ◌<◌, ◌≤◌, ◌-◌, true, false, length, take, drop, get_or, IfSome, IfNone};
ghost use Rattle.utf8.specs.Utf8.{is_ascii};
ghost use Rattle.utf8.specs.Characters.{two_bytes, three_bytes, four_bytes, multi_byte, first_char, last_char, some_char, is_utf8};
ghost use Rattle.utf8.specs.Boundary.{Boundary, is_boundary};

use crate::class::is_continuation;
use crate::window::passes_windows;

// A character: its code point and how many bytes encode it.
#[derive(Clone, Copy, Debug, PartialEq, Eq)]
pub struct Char {
    pub code: u32,
    pub len: usize,
}

// Bytes that are UTF-8. No `str`: its own test would be a second one, and contracts see its characters, where spans and pieces are bytes.
#[derive(Clone, Copy)]
pub struct Utf8Bytes<'a> {
    pub bytes: &'a [u8],
    ghost utf8: { is_utf8 bytes.now ≡ true },
}

// A place between two characters: the end of a text, or where a character of it begins.
#[derive(Clone, Copy)]
pub struct Place<'a> {
    pub text: Utf8Bytes<'a>,
    pub at: usize,
    ghost boundary: { Boundary text.bytes.now at },
}

// The byte at a place, 0 past the end.
pub fn byte_at(s: &[u8], i: usize) -> u8
    ensures { result ≡ get_or s.now i 0 }
{
    s.get(i).copied().unwrap_or(0)
}

// The bytes of a character are taken one by one, `a` to `d`, as the standard's table speaks of them: an array of them would be made anew.

// The character in two bytes, in its shortest form.
#[inline(always)]
#[tactic(auto, unfolding(crate::specs::Characters::two_bytes))]
fn two_bytes(a: u8, b: u8) -> Option<Char>
    requires { 0xc0 ≤ a }
    ensures { result ≡ some_char (two_bytes a b) }
{
    if !is_continuation(b) {
        return None;
    }
    let code = (u32::from(a) - 0xc0) * 64 + (u32::from(b) - 0x80);
    (0x80 <= code).then_some(Char { code, len: 2 })
}

// The character in three bytes, in its shortest form and no surrogate.
#[inline(always)]
#[tactic(auto, unfolding(crate::specs::Characters::three_bytes))]
fn three_bytes(a: u8, b: u8, c: u8) -> Option<Char>
    requires { 0xe0 ≤ a }
    ensures { result ≡ some_char (three_bytes a b c) }
{
    if !(is_continuation(b) && is_continuation(c)) {
        return None;
    }
    let code = (u32::from(a) - 0xe0) * 4096 + (u32::from(b) - 0x80) * 64 + (u32::from(c) - 0x80);
    matches!(code, 0x800..0xd800 | 0xe000..).then_some(Char { code, len: 3 })
}

// The character in four bytes, in its shortest form and no larger than Unicode goes.
#[inline(always)]
#[tactic(auto, unfolding(crate::specs::Characters::four_bytes))]
fn four_bytes(a: u8, b: u8, c: u8, d: u8) -> Option<Char>
    requires { 0xf0 ≤ a }
    ensures { result ≡ some_char (four_bytes a b c d) }
{
    if !(is_continuation(b) && is_continuation(c) && is_continuation(d)) {
        return None;
    }
    let code = (u32::from(a) - 0xf0) * 262144
        + (u32::from(b) - 0x80) * 4096
        + (u32::from(c) - 0x80) * 64
        + (u32::from(d) - 0x80);
    matches!(code, 0x1_0000..=0x10_ffff).then_some(Char { code, len: 4 })
}

// The character that begins with `a`, which is no ASCII byte.
#[inline(always)]
#[tactic(auto, unfolding(crate::specs::Characters::multi_byte))]
fn multi_byte(a: u8, b: u8, c: u8, d: u8) -> Option<Char>
    ensures { result ≡ some_char (multi_byte a b c d) }
{
    match a {
        0xc0..0xe0 => two_bytes(a, b),
        0xe0..0xf0 => three_bytes(a, b, c),
        0xf0..0xf8 => four_bytes(a, b, c, d),
        _ => None,
    }
}

// The character that the bytes from `i` on begin with; none at the end, past it, and where the bytes are no UTF-8. In line: an Option of a
// character is handed back through memory.
#[inline(always)]
pub fn first_char(s: &[u8], i: usize) -> Option<Char>
    ensures { result ≡ some_char (first_char (drop i s.now)) }
{
    let a = *s.get(i)?;
    if a < 0x80 {
        return Some(Char {
            code: u32::from(a),
            len: 1,
        });
    }
    multi_byte(a, byte_at(s, i + 1), byte_at(s, i + 2), byte_at(s, i + 3))
}

// Whether `i` is the text's end or a character begins there.
#[tactic(auto, unfolding(crate::specs::Boundary::is_boundary))]
pub fn is_boundary(s: &[u8], i: usize) -> bool
    ensures { result ≡ is_boundary s.now i }
{
    i <= s.len() && !is_continuation(byte_at(s, i))
}

impl<'a> Utf8Bytes<'a> {
    // The bytes, if they are UTF-8.
    pub fn new(bytes: &'a [u8]) -> Option<Self>
        ensures some { IfSome result (λ t. (is_utf8 bytes.now ≡ true) × (t.bytes.now ≡ bytes.now)) }
        ensures none { IfNone result (is_utf8 bytes.now ≡ false) }
    {
        if is_utf8(bytes) {
            Some(Utf8Bytes { bytes })
        } else {
            None
        }
    }

    // The bytes from `at` on, where that is between two characters.
    pub fn rest_from(self, at: usize) -> Self
        requires { Boundary self.bytes.now at }
        ensures { result.bytes.now ≡ drop at self.entry.bytes.now }
    {
        Utf8Bytes {
            bytes: &self.bytes[at..],
        }
    }
}

impl Place<'_> {
    // How many bytes the character has that begins here: its first byte says so.
    pub fn char_len(self) -> usize
        requires { self.at < length self.text.bytes.now }
        ensures { result ≡ (first_char (drop self.entry.at self.entry.text.bytes.now)).len }
    {
        match self.text.bytes[self.at] {
            ..0x80 => 1,
            0x80..0xe0 => 2,
            0xe0..0xf0 => 3,
            _ => 4,
        }
    }

    // Where the character begins that ends here.
    #[inline(always)]
    pub fn last_start(self) -> usize
        requires { 0 < self.at }
        ensures { result ≡ self.entry.at - (last_char (take self.entry.at self.entry.text.bytes.now)).len }
    {
        let s = self.text.bytes;
        let mut start = self.at - 1;
        while is_continuation(byte_at(s, start)) {
            start -= 1;
        }
        start
    }

    // The character that ends here; none at the text's start. In line, as `first_char` is.
    #[inline(always)]
    pub fn last_char(self) -> Option<Char>
        ensures { result ≡ some_char (last_char (take self.entry.at self.entry.text.bytes.now)) }
    {
        if self.at == 0 {
            return None;
        }
        first_char(self.text.bytes, self.last_start())
    }
}

// Whether the bytes are UTF-8, read character by character.
fn is_utf8_by_characters(s: &[u8]) -> bool
    ensures { result ≡ is_utf8 s.now }
{
    let mut i = 0;
    while let Some(c) = first_char(s, i) {
        i += c.len;
    }
    i == s.len()
}

// Whether the bytes are UTF-8: those that do not pass by windows are read character by character.
pub fn is_utf8(s: &[u8]) -> bool
    ensures { result ≡ is_utf8 s.now }
{
    passes_windows(s) || is_utf8_by_characters(s)
}

// Whether every byte is ASCII. None ends the loop, so that the compiler takes many at once: by `all` it takes thirteen times as long.
#[tactic(auto, unfolding(crate::specs::Utf8::is_ascii))]
pub fn is_ascii(s: &[u8]) -> bool
    ensures { result ≡ is_ascii s.now }
{
    let mut ascii = true;
    for b in s {
        ascii &= b.is_ascii();
    }
    ascii
}
