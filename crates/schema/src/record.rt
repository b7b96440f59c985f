// The numbers that a record holds of a resolved scalar. (E2.)
ghost use Rattle.std.specs.Prelude.{◌≡◌};
ghost use Rattle.std.specs.Result.{result_ok};
ghost use Rattle.schema.specs.Record.{kind_of, kind_number, number_of, kind_numbered, payload_of};

use crate::plain::Resolved;

// What kind of value a record holds.
#[derive(Clone, Copy, Debug, PartialEq, Eq)]
pub enum Kind {
    Null = 1,
    Boolean = 2,
    Integer = 3,
    Real = 4,
    Str = 5,
    BadValue = 6,
    Array = 7,
    Hash = 8,
}

// A kind's number in a record.
impl From<Kind> for u32 {
    ghost from_gives = { λ kind n. n ≡ number_of kind };

    fn from(kind: Kind) -> u32 {
        kind as u32
    }
}

// A number that no kind has.
#[derive(Clone, Copy, Debug, PartialEq, Eq)]
pub struct UnknownKind(pub u32);

impl TryFrom<u32> for Kind {
    type Error = UnknownKind;

    ghost try_from_gives = { λ n kind. result_ok kind ≡ kind_numbered n };

    fn try_from(n: u32) -> Result<Kind, UnknownKind> {
        match n {
            1 => Ok(Kind::Null),
            2 => Ok(Kind::Boolean),
            3 => Ok(Kind::Integer),
            4 => Ok(Kind::Real),
            5 => Ok(Kind::Str),
            6 => Ok(Kind::BadValue),
            7 => Ok(Kind::Array),
            8 => Ok(Kind::Hash),
            _ => Err(UnknownKind(n)),
        }
    }
}

impl Resolved {
    pub fn kind(self) -> Kind
        ensures { result ≡ kind_of self }
    {
        match self {
            Resolved::Null => Kind::Null,
            Resolved::Boolean(_) => Kind::Boolean,
            Resolved::Integer(_) => Kind::Integer,
            Resolved::Real => Kind::Real,
            Resolved::Str => Kind::Str,
            Resolved::BadValue => Kind::BadValue,
        }
    }
}

// A record's two payload numbers.
#[derive(Clone, Copy, Debug, Default, PartialEq, Eq)]
pub struct Payload {
    pub first: u32,
    pub second: u32,
}

// The number of the record's kind.
pub fn kind_number(resolved: Resolved) -> u32
    ensures { result ≡ kind_number resolved }
{
    u32::from(resolved.kind())
}

// The payload of a scalar whose value starts at `place` and has `len` bytes.
pub fn payload_of(resolved: Resolved, place: u32, len: u32) -> Payload
    ensures { result ≡ payload_of resolved place len }
{
    match resolved {
        Resolved::Null | Resolved::BadValue => Payload::default(),
        Resolved::Boolean(truth) => Payload {
            first: u32::from(truth),
            second: 0,
        },
        Resolved::Integer(n) => {
            let bits = n.cast_unsigned();
            Payload {
                first: (bits >> 32) as u32,
                second: (bits & 0xffff_ffff) as u32,
            }
        }
        Resolved::Real | Resolved::Str => Payload {
            first: place,
            second: len,
        },
    }
}
