// Untagged plain scalars. (P2.)
ghost use Rattle.std.specs.Prelude.{◌≡◌};
ghost use Rattle.schema.specs.CoreSchema.{core_schema, integer_or};
ghost use Rattle.schema.specs.Kinds.{core_real};
ghost use Rattle.schema.specs.Form.{real_form, no_integer};

use crate::form::{Form, form_of};
use crate::integer::integer_of;

// What a scalar is. A real and a string stand in the scalar's own bytes.
#[derive(Clone, Copy, Debug, PartialEq, Eq)]
pub enum Resolved {
    Null,
    Boolean(bool),
    Integer(i64),
    Real,
    Str,
    BadValue,
}

// The integer, or `other` where there is none.
pub fn integer_or(integer: Option<i64>, other: Resolved) -> Resolved
    ensures { result ≡ integer_or integer other }
{
    integer.map_or(other, Resolved::Integer)
}

// Whether a scalar of this form is a real of the core schema; a digit run is one.
fn real_form(form: Form) -> bool
    ensures { result ≡ real_form form }
{
    matches!(form, Form::Decimal | Form::Float)
}

// Whether `value` is a real of the core schema, a digit run included.
#[tactic(auto, using(crate::proofs::Forms::core_real_lem))]
pub fn is_yaml_float(value: &[u8]) -> bool
    ensures { result ≡ core_real value.now }
{
    real_form(form_of(value))
}

// What a scalar of this form is that has no integer, or one that 64 signed bits do not hold.
fn no_integer(form: Form) -> Resolved
    ensures { result ≡ no_integer form }
{
    match form {
        Form::Null => Resolved::Null,
        Form::True => Resolved::Boolean(true),
        Form::False => Resolved::Boolean(false),
        Form::Decimal | Form::Float => Resolved::Real,
        Form::Octal | Form::Hexadecimal | Form::Other => Resolved::Str,
    }
}

// What an untagged plain scalar is by the core schema of YAML 1.2.2.
#[tactic(auto, using(crate::proofs::Forms::core_schema_lem))]
pub fn resolve_plain_scalar(value: &[u8]) -> Resolved
    ensures { result ≡ core_schema value.now }
{
    let form = form_of(value);
    integer_or(integer_of(value, form), no_integer(form))
}
