// Integers of the core schema, gathered below zero so that the lowest one needs no wider type. (F8.)
ghost use Rattle.std.specs.Prelude.{◌≡◌, ◌<◌, pos, neg_ℤ};
ghost use Rattle.schema.specs.Integer.{digit_value, value_of, signed_value, held};
ghost use Rattle.schema.specs.Form.{integer_of};
ghost use Rattle.schema.specs.Kinds.{core_integer};

use crate::form::{Form, form_of};

// What the digit `b` counts; a byte that is no digit counts nothing. By ranges, since `to_digit` takes longer for each digit.
#[tactic(auto, unfolding(crate::specs::Integer::digit_value))]
fn digit_value(b: u8) -> u8
    ensures { result ≡ digit_value b }
{
    match b {
        b'0'..=b'9' => b - b'0',
        b'A'..=b'F' => b - b'A' + 10,
        b'a'..=b'f' => b - b'a' + 10,
        _ => 0,
    }
}

// The negative of what the digits write in `base`, if 64 signed bits hold it.
// Why `0 < base` and no type: each call writes 8, 10 or 16, and a `NonZeroU8` would be made there and taken apart here.
fn gather(digits: &[u8], base: u8) -> Option<i64>
    requires { 0 < base }
    ensures { result ≡ held (neg_ℤ (pos (value_of base digits.now))) }
{
    let mut sum: i64 = 0;
    for &b in digits {
        sum = sum
            .checked_mul(i64::from(base))?
            .checked_sub(i64::from(digit_value(b)))?;
    }
    Some(sum)
}

// What the digits write in `base`, if 64 signed bits hold it. (`0 < base`: as above.)
fn positive(digits: &[u8], base: u8) -> Option<i64>
    requires { 0 < base }
    ensures { result ≡ held (pos (value_of base digits.now)) }
{
    gather(digits, base)?.checked_neg()
}

// The value of a digit run in base 10 with a sign or none before it, if 64 signed bits hold it.
fn decimal(value: &[u8]) -> Option<i64>
    ensures { result ≡ held (signed_value value.now) }
{
    match value.strip_prefix(b"-") {
        Some(digits) => gather(digits, 10),
        None => positive(value.strip_prefix(b"+").unwrap_or(value), 10),
    }
}

// The integer that `value` writes, which has the form `form`, if 64 signed bits hold it.
pub fn integer_of(value: &[u8], form: Form) -> Option<i64>
    ensures { result ≡ integer_of form value.now }
{
    match form {
        Form::Decimal => decimal(value),
        Form::Octal => positive(value.get(2..).unwrap_or(&[]), 8),
        Form::Hexadecimal => positive(value.get(2..).unwrap_or(&[]), 16),
        Form::Null | Form::True | Form::False | Form::Float | Form::Other => None,
    }
}

// The integer that `value` writes in one of the three forms of the core schema, if 64 signed bits hold it.
#[tactic(auto, using(crate::proofs::Forms::core_integer_lem))]
pub fn parse_core_schema_int(value: &[u8]) -> Option<i64>
    ensures { result ≡ core_integer value.now }
{
    integer_of(value, form_of(value))
}
