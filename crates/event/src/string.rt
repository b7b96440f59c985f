// The handle or the suffix of a YAML tag: a two-byte length, then as many bytes of UTF-8.
ghost use Rattle.std.specs.Prelude.{◌≡◌, ◌+◌, ◌≤◌, length, IfOk};
ghost use Rattle.event.specs.Read.{part_of, read_string};

use crate::malformed::Malformed;
use crate::number::number_at;
use utf8::utf8::is_utf8;

// The bytes of a string's length.
const LENGTH: usize = 2;

// A part of the event bytes.
#[derive(Clone, Copy, Debug, PartialEq, Eq)]
pub struct Part {
    pub at: usize,
    pub len: usize,
}

impl Part {
    // Its bytes.
    pub fn bytes_in(self, events: &[u8]) -> &[u8]
        // A slice's index asks that the bytes are there.
        requires { self.at + self.len ≤ length events.now }
        ensures { result.now ≡ part_of events.now self }
    {
        &events[self.at..self.at + self.len]
    }
}

// The string that starts at `at`, its length left out, or Malformed: it is cut off, or no UTF-8.
#[tactic(auto, unfolding(crate::specs::Read::read_string))]
pub fn string_at(events: &[u8], at: usize) -> Result<Part, Malformed>
    ensures value { result ≡ read_string events.now at }
    ensures inside { IfOk result (λ p. p.at + p.len ≤ length events.now) }
{
    if events.len().saturating_sub(at) < LENGTH {
        return Err(Malformed);
    }
    let len = number_at(events, at, LENGTH) as usize;
    let from = at + LENGTH;
    let string = events.get(from..from + len).ok_or(Malformed)?;
    if !is_utf8(string) {
        return Err(Malformed);
    }
    Ok(Part { at: from, len })
}
