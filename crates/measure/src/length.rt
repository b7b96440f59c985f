// What a measure answers. (02: (b).)
ghost use Rattle.std.specs.Prelude.{◌≡◌};
ghost use Rattle.measure.specs.Length.{measured, assumed};

// A length in bytes, and whether it was measured: found in the text. Otherwise it is assumed: the value's own length. A struct and no enum:
// a length is cut and added in the same way whichever it is.
#[derive(Clone, Copy, Debug, PartialEq, Eq)]
pub struct Measure {
    pub len: usize,
    pub measured: bool,
}

impl Measure {
    pub(crate) fn measured(len: usize) -> Measure
        ensures { result ≡ measured len }
    {
        Measure {
            len,
            measured: true,
        }
    }

    pub(crate) fn assumed(len: usize) -> Measure
        ensures { result ≡ assumed len }
    {
        Measure {
            len,
            measured: false,
        }
    }
}
