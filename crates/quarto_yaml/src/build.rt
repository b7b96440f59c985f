// The calls that read a text. (01: the table; N4.)
ghost use Rattle.std.specs.Prelude.{◌≡◌};
ghost use Rattle.node.specs.Marker.{scan_error, scanned};
ghost use Rattle.quarto_yaml.specs.Answer.{three, answer_numbers, Told, ToldScalar};

use parser::answer::Refusal;
use records::record::RECORD_WIDTH;

// 0 and what the call says of the two others; or document 01's number, its place, and 0.
#[repr(C)]
#[derive(Clone, Copy, Debug, PartialEq, Eq)]
pub struct Answered {
    pub code: u32,
    pub first: u32,
    pub second: u32,
}

// The answer and the scalar's record, zero if it is refused.
#[repr(C)]
#[derive(Clone, Copy, Debug, PartialEq, Eq)]
pub struct AnsweredScalar {
    pub answer: Answered,
    pub record: [u32; RECORD_WIDTH],
}

// `build`: 0, records and pieces.
#[unsafe(no_mangle)]
pub extern "C" fn quarto_yaml_build(
    text: &[u8],
    events: &[u8],
    records: &mut [u32],
    pieces: &mut [u32],
) -> Answered
    ensures { Told text.now events.now records.old pieces.old result records.new pieces.new }
{
    match parser::build::build(text, events, records, pieces) {
        Ok(built) => Answered {
            code: 0,
            first: built.nodes as u32,
            second: built.pieces as u32,
        },
        Err(refused) => Answered {
            code: refused.refusal.into(),
            first: refused.place as u32,
            second: 0,
        },
    }
}

// `scalar`: 0, 1 and pieces.
#[unsafe(no_mangle)]
pub extern "C" fn quarto_yaml_scalar(
    text: &[u8],
    index: u32,
    column: u32,
    style: u8,
    empty_span: bool,
    value: &[u8],
    pieces: &mut [u32],
) -> AnsweredScalar
    ensures { ToldScalar text.now index column style empty_span value.now pieces.old result pieces.new }
{
    match parser::one::scalar(text, index, column, style, empty_span, value, pieces) {
        Ok(scalar) => AnsweredScalar {
            answer: Answered {
                code: 0,
                first: 1,
                second: scalar.pieces as u32,
            },
            record: scalar.node.into(),
        },
        Err(refusal) => AnsweredScalar {
            answer: Answered {
                code: refusal.into(),
                first: 0,
                second: 0,
            },
            record: [0; RECORD_WIDTH],
        },
    }
}

// `scan_error`: 0, start and end.
#[unsafe(no_mangle)]
pub extern "C" fn quarto_yaml_scan_error(text: &[u8], index: u32) -> Answered
    ensures { answer_numbers result ≡ three (scanned (scan_error text.now index)) }
{
    match node::marker::scan_error(text, index) {
        Ok(span) => Answered {
            code: 0,
            first: span.start,
            second: span.end,
        },
        Err(error) => Answered {
            code: Refusal::from(error).into(),
            first: 0,
            second: 0,
        },
    }
}
