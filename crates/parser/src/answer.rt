// What calls answer. (01: the table.)
ghost use Rattle.std.specs.Prelude.{◌≡◌};
ghost use Rattle.text.specs.Admission.{error_number};
ghost use Rattle.parser.specs.Call.{row_number};
ghost use Rattle.parser.specs.declared.answer.Refusal.TheVariants as row;

use event::malformed::Malformed;
use records::record::Node;
use style::UnknownStyle;
use text::admission::TextError;

// Why a call refuses: rows 1 to 9 of the table, in their order.
#[derive(Clone, Copy, Debug, PartialEq, Eq)]
pub enum Refusal {
    TooLong = 1,
    NotUtf8 = 2,
    Malformed = 3,
    Unbalanced = 4,
    AfterRoot = 5,
    TooDeep = 6,
    NoRecordRoom = 7,
    NoPieceRoom = 8,
    Unfinished = 9,
}

// The row's number.
impl From<Refusal> for u32 {
    ghost from_gives = { λ refusal n. n ≡ row_number refusal };

    fn from(refusal: Refusal) -> u32 {
        refusal as u32
    }
}

impl From<TextError> for Refusal {
    ghost from_gives = { λ e refusal. row_number refusal ≡ error_number e };

    fn from(e: TextError) -> Refusal {
        match e {
            TextError::TooLong => Refusal::TooLong,
            TextError::NotUtf8 => Refusal::NotUtf8,
        }
    }
}

impl From<Malformed> for Refusal {
    ghost from_gives = { λ e refusal. refusal ≡ row.Malformed };

    fn from(_e: Malformed) -> Refusal {
        Refusal::Malformed
    }
}

impl From<UnknownStyle> for Refusal {
    ghost from_gives = { λ e refusal. refusal ≡ row.Malformed };

    fn from(_e: UnknownStyle) -> Refusal {
        Refusal::Malformed
    }
}

// A document whose buffers hold so many records and pieces.
#[derive(Clone, Copy, Debug, PartialEq, Eq)]
pub struct Built {
    pub nodes: usize,
    pub pieces: usize,
}

// A document that is refused, and the row's place; its buffers are zero.
#[derive(Clone, Copy, Debug, PartialEq, Eq)]
pub struct Refused {
    pub refusal: Refusal,
    pub place: usize,
}

// A scalar that is built: its record, and how many pieces the buffer holds.
#[derive(Clone, Copy, Debug, PartialEq, Eq)]
pub struct Scalar {
    pub node: Node,
    pub pieces: usize,
}
