// The classes of a byte: white space, decimal digit, hexadecimal digit, UTF-8 continuation. Told by comparisons, so that they take
// no read-only memory. (01: Reading rules; S15, F7. 02: request (d).)
ghost use Rattle.std.specs.Prelude.{◌≡◌};
ghost use Rattle.utf8.specs.Class.{class_of, is_white_space_byte, is_decimal_digit, is_hex_digit, is_continuation};

const WHITE_SPACE: u8 = 1;

const DECIMAL_DIGIT: u8 = 2;

const HEX_DIGIT: u8 = 4;

const CONTINUATION: u8 = 8;

// The layers above take these four from here.
pub const TAB: u8 = 9;

pub const NEWLINE: u8 = 10;

pub const CARRIAGE_RETURN: u8 = 13;

pub const BLANK: u8 = 32;

const NEXT_LINE: u8 = 133;

const NO_BREAK_SPACE: u8 = 160;

// Whether `b` is white space to the walk, which goes by bytes. Spans and tags go by code points: `white_space::is_white_space`.
pub fn is_white_space_byte(b: u8) -> bool
    ensures { result ≡ is_white_space_byte b }
{
    matches!(
        b,
        TAB..=CARRIAGE_RETURN | BLANK | NEXT_LINE | NO_BREAK_SPACE
    )
}

pub fn is_decimal_digit(b: u8) -> bool
    ensures { result ≡ is_decimal_digit b }
{
    b.is_ascii_digit()
}

pub fn is_hex_digit(b: u8) -> bool
    ensures { result ≡ is_hex_digit b }
{
    b.is_ascii_hexdigit()
}

// Whether `b` continues a character that an earlier byte began.
pub fn is_continuation(b: u8) -> bool
    ensures { result ≡ is_continuation b }
{
    matches!(b, 0x80..=0xbf)
}

// The sum of the classes of `b`.
#[tactic(auto, unfolding(crate::specs::Class::class_of))]
pub fn class_of(b: u8) -> u8
    ensures { result ≡ class_of b }
{
    u8::from(is_white_space_byte(b)) * WHITE_SPACE
        + u8::from(is_decimal_digit(b)) * DECIMAL_DIGIT
        + u8::from(is_hex_digit(b)) * HEX_DIGIT
        + u8::from(is_continuation(b)) * CONTINUATION
}
