// What every public call tests first: the sizes, then UTF-8. (01: rows 1 and 2 of the table; R1, R2, RO.)
ghost use Rattle.std.specs.Prelude.{◌≡◌, ◌≤◌, true, length, IfOk, IfErr, Ok, Err};
ghost use Rattle.utf8.specs.Utf8.{is_ascii};
ghost use Rattle.utf8.specs.Boundary.{Boundary};
ghost use Rattle.utf8.specs.Characters.{is_utf8};
ghost use Rattle.text.specs.Admission.{text_limit, admission, admission_of_both};

use utf8::utf8::{Place, Utf8Bytes, is_ascii, is_utf8};

// The most bytes of a text, and of the value of a call on one scalar.
pub const TEXT_LIMIT: usize = 1_048_576;

// Why a text is not admitted.
#[derive(Clone, Copy, Debug, PartialEq, Eq)]
pub enum TextError {
    // Number 1.
    TooLong,
    // Number 2.
    NotUtf8,
}

// Bytes that are admitted: within the limit, and UTF-8. No wrapper of `Utf8Bytes`: nested, each contract above would name the bytes through
// a field more.
#[derive(Clone, Copy)]
pub struct Admitted<'a> {
    pub bytes: &'a [u8],
    ghost within: { length bytes.now ≤ text_limit },
    ghost utf8: { is_utf8 bytes.now ≡ true },
}

// A place between two characters of such bytes. No wrapper of `Place`, for the same reason.
#[derive(Clone, Copy)]
pub struct AdmittedPlace<'a> {
    pub text: Admitted<'a>,
    pub at: usize,
    ghost boundary: { Boundary text.bytes.now at },
}

impl<'a> Admitted<'a> {
    // The same as UTF-8 of any length.
    pub fn utf8(self) -> Utf8Bytes<'a>
        ensures { result.bytes.now ≡ self.entry.bytes.now }
    {
        Utf8Bytes { bytes: self.bytes }
    }
}

impl<'a> AdmittedPlace<'a> {
    // The same in UTF-8 of any length.
    pub fn place(self) -> Place<'a>
        ensures { (result.text.bytes.now ≡ self.entry.text.bytes.now) × (result.at ≡ self.entry.at) }
    {
        Place {
            text: self.text.utf8(),
            at: self.at,
        }
    }
}

// An admitted text, and whether it is ASCII: marker offsets go by that.
#[derive(Clone, Copy)]
pub struct Text<'a> {
    pub content: Admitted<'a>,
    pub ascii: bool,
    ghost ascii_value: { ascii ≡ is_ascii content.bytes.now },
}

// The text of these bytes, if they are admitted.
#[tactic(auto, unfolding(crate::specs::Admission::admission), using(crate::proofs::OffsetLaws::ascii_utf8))]
pub fn admit_text(bytes: &[u8]) -> Result<Text<'_>, TextError>
    ensures admitted { IfOk result (λ t. (admission bytes.now ≡ Ok t.ascii) × (t.content.bytes.now ≡ bytes.now)) }
    ensures refused { IfErr result (λ e. admission bytes.now ≡ Err e) }
{
    if TEXT_LIMIT < bytes.len() {
        return Err(TextError::TooLong);
    }
    let ascii = is_ascii(bytes);
    if ascii || is_utf8(bytes) {
        return Ok(Text {
            content: Admitted { bytes },
            ascii,
        });
    }
    Err(TextError::NotUtf8)
}

// The same of a text and a value, as a call on one scalar has them.
pub fn admit_text_and_value<'a, 'b>(
    text: &'a [u8],
    value: &'b [u8],
) -> Result<(Text<'a>, Admitted<'b>), TextError>
    ensures admitted { IfOk result (λ t. (admission_of_both text.now value.now ≡ Ok t.0.ascii) × (t.0.content.bytes.now ≡ text.now) × (t.1.bytes.now ≡ value.now)) }
    ensures refused { IfErr result (λ e. admission_of_both text.now value.now ≡ Err e) }
{
    if TEXT_LIMIT < value.len() {
        return Err(TextError::TooLong);
    }
    let text = admit_text(text)?;
    if is_utf8(value) {
        return Ok((text, Admitted { bytes: value }));
    }
    Err(TextError::NotUtf8)
}
