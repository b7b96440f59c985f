// The calls that count. (02: (k).)
ghost use Rattle.std.specs.Prelude.{◌≡◌};
ghost use Rattle.travel.specs.Travel.{counted, cursor_travel};
ghost use Rattle.quarto_yaml.specs.Answer.{count_numbers};

use parser::answer::Refusal;

// 0 and what the call counts; or the table's number, and 0.
#[repr(C)]
#[derive(Clone, Copy, Debug, PartialEq, Eq)]
pub struct Counted {
    pub code: u32,
    pub count: u64,
}

// `cursor_travel`: 0 and the steps.
#[unsafe(no_mangle)]
pub extern "C" fn quarto_yaml_cursor_travel(text: &[u8], markers: &[u32]) -> Counted
    ensures { count_numbers result ≡ counted (cursor_travel text.now markers.now) }
{
    match travel::travel::cursor_travel(text, markers) {
        Ok(count) => Counted { code: 0, count },
        Err(error) => Counted {
            code: Refusal::from(error).into(),
            count: 0,
        },
    }
}
