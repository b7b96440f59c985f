// What the readers refuse. (01: row 3 of the table.)
use style::UnknownStyle;

// The bytes are no event, or no part of one. Number 3.
#[derive(Clone, Copy, Debug, PartialEq, Eq)]
pub struct Malformed;

// A style's number that no style has.
impl From<UnknownStyle> for Malformed {
    fn from(_e: UnknownStyle) -> Malformed {
        Malformed
    }
}
