// The YAML tag of a start or a scalar: byte 0 for none, or byte 1, handle and suffix.
ghost use Rattle.std.specs.Prelude.{◌≡◌, ◌≤◌, length, IfOk};
ghost use Rattle.event.specs.Read.{read_tag, read_start_tag};

use crate::malformed::Malformed;
use crate::string::{Part, string_at};

#[derive(Clone, Copy, Debug, PartialEq, Eq)]
pub struct YamlTag {
    pub handle: Part,
    pub suffix: Part,
}

// The tag that starts at `at`, if there is one, and the place after it. Malformed: a flag above 1, or a handle or suffix that
// is cut off or no UTF-8.
#[tactic(auto, unfolding(crate::specs::Read::read_tag))]
pub fn tag_at(events: &[u8], at: usize) -> Result<(Option<YamlTag>, usize), Malformed>
    ensures value { result ≡ read_tag events.now at }
    ensures inside { IfOk result (λ t. t.1 ≤ length events.now) }
{
    match events.get(at) {
        Some(0) => Ok((None, at + 1)),
        Some(1) => {
            let handle = string_at(events, at + 1)?;
            let suffix = string_at(events, handle.at + handle.len)?;
            Ok((Some(YamlTag { handle, suffix }), suffix.at + suffix.len))
        }
        _ => Err(Malformed),
    }
}

// The tag that takes all bytes from `at` on, as the body of a start has it.
#[tactic(auto, unfolding(crate::specs::Read::read_start_tag))]
pub fn start_tag(events: &[u8], at: usize) -> Result<Option<YamlTag>, Malformed>
    ensures { result ≡ read_start_tag events.now at }
{
    let (tag, next) = tag_at(events, at)?;
    if next < events.len() {
        return Err(Malformed);
    }
    Ok(tag)
}
