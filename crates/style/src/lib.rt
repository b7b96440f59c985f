// The styles of scalars. (01: Events.)
#![tactic(auto)]

ghost use Rattle.std.specs.Prelude.{◌≡◌};
ghost use Rattle.std.specs.Result.{result_ok};
ghost use Rattle.style.specs.Style.{style_number, style_of, style_numbered, is_block};

// The style that a scalar is written in.
#[derive(Clone, Copy, Debug, PartialEq, Eq)]
pub enum Style {
    Plain = 0,
    SingleQuoted = 1,
    DoubleQuoted = 2,
    Literal = 3,
    Folded = 4,
}

// A style's number in an event's bytes.
impl From<Style> for u8 {
    ghost from_gives = { λ style n. n ≡ style_number style };

    fn from(style: Style) -> u8 {
        style as u8
    }
}

// A number that no style has.
#[derive(Clone, Copy, Debug, PartialEq, Eq)]
pub struct UnknownStyle(pub u8);

impl TryFrom<u8> for Style {
    type Error = UnknownStyle;

    ghost try_from_gives = { λ n style. result_ok style ≡ style_numbered n };

    fn try_from(n: u8) -> Result<Style, UnknownStyle> {
        match n {
            0 => Ok(Style::Plain),
            1 => Ok(Style::SingleQuoted),
            2 => Ok(Style::DoubleQuoted),
            3 => Ok(Style::Literal),
            4 => Ok(Style::Folded),
            _ => Err(UnknownStyle(n)),
        }
    }
}

impl Style {
    // The style by which the rules take any number: one that no style has is read as a block. What takes any number for a style goes by
    // it. The theorems `any_number` say that the definitions take a number so.
    pub fn of(n: u8) -> Style
        ensures { result ≡ style_of n }
    {
        Style::try_from(n).unwrap_or(Style::Folded)
    }

    pub fn is_block(self) -> bool
        ensures { result ≡ is_block (style_number self) }
    {
        matches!(self, Style::Literal | Style::Folded)
    }
}
