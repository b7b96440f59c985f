// The reader of one event. (01: Events; row 3 of the table.)
ghost use Rattle.std.specs.Prelude.{◌≡◌};
ghost use Rattle.event.specs.Read.{read_scalar, read_body, read_event};

use crate::malformed::Malformed;
use crate::number::number_at;
use crate::string::Part;
use crate::tag::{YamlTag, start_tag, tag_at};
use style::Style;
use utf8::utf8::is_utf8;

// The most event bytes of a call.
pub const EVENTS_LIMIT: usize = 4_194_304;

// The bytes of the header: the tag byte and the body's length.
const HEADER: usize = 3;
// The bytes of the marker index, which every body starts with.
const INDEX: usize = 4;

// The tag bytes. Each is matched once, where its event is made: an enum of them would be a second `Event`.
const SEQUENCE_START: u8 = 1;

const SEQUENCE_END: u8 = 2;

const MAPPING_START: u8 = 3;

const MAPPING_END: u8 = 4;

const SCALAR: u8 = 5;

const ALIAS: u8 = 6;

// How far behind a scalar's column its style, empty span and YAML tag stand.
const STYLE: usize = 4;

const EMPTY_SPAN: usize = 5;

const YAML_TAG: usize = 6;

// An event: its marker index and what its body adds. The index stands in each variant: each body begins with it, and a struct around the
// event would be taken apart at the one match that the library has.
#[derive(Clone, Copy, Debug, PartialEq, Eq)]
pub enum Event {
    SequenceStart {
        index: u32,
        tag: Option<YamlTag>,
    },
    SequenceEnd {
        index: u32,
    },
    MappingStart {
        index: u32,
        tag: Option<YamlTag>,
    },
    MappingEnd {
        index: u32,
    },
    Scalar {
        index: u32,
        column: u32,
        style: Style,
        empty_span: bool,
        tag: Option<YamlTag>,
        value: Part,
    },
    Alias {
        index: u32,
    },
}

// The scalar whose body goes on from its column at `at` to the end of the bytes.
#[tactic(auto, unfolding(crate::specs::Read::read_scalar))]
fn read_scalar(events: &[u8], index: u32, at: usize) -> Result<Event, Malformed>
    ensures { result ≡ read_scalar events.now index at }
{
    if events.len().saturating_sub(at) < YAML_TAG {
        return Err(Malformed);
    }
    let column = number_at(events, at, 4);
    let style = Style::try_from(events[at + STYLE])?;
    let empty_span = match events[at + EMPTY_SPAN] {
        0 => false,
        1 => true,
        _ => return Err(Malformed),
    };
    let (tag, from) = tag_at(events, at + YAML_TAG)?;
    let value = &events[from..];
    if !is_utf8(value) {
        return Err(Malformed);
    }
    Ok(Event::Scalar {
        index,
        column,
        style,
        empty_span,
        tag,
        value: Part {
            at: from,
            len: value.len(),
        },
    })
}

// The event of this kind whose body goes on after its marker index, at `at`, to the end of the bytes.
#[tactic(auto, unfolding(crate::specs::Read::read_body))]
fn read_body(events: &[u8], kind: u8, index: u32, at: usize) -> Result<Event, Malformed>
    ensures { result ≡ read_body events.now kind index at }
{
    match kind {
        SCALAR => read_scalar(events, index, at),
        SEQUENCE_START => Ok(Event::SequenceStart {
            index,
            tag: start_tag(events, at)?,
        }),
        MAPPING_START => Ok(Event::MappingStart {
            index,
            tag: start_tag(events, at)?,
        }),
        // The body of any other is its marker index alone.
        _ if at < events.len() => Err(Malformed),
        SEQUENCE_END => Ok(Event::SequenceEnd { index }),
        MAPPING_END => Ok(Event::MappingEnd { index }),
        ALIAS => Ok(Event::Alias { index }),
        _ => Err(Malformed),
    }
}

// The event that starts at `at`, and the place after it, or Malformed: the header cut off, an unknown tag or style, a flag above 1, a
// body that is short, overlong or past the bytes, or a value, handle or suffix that is no UTF-8.
#[tactic(auto, unfolding(crate::specs::Read::read_event))]
pub fn read_event(events: &[u8], at: usize) -> Result<(Event, usize), Malformed>
    ensures { result ≡ read_event events.now at }
{
    if events.len().saturating_sub(at) < HEADER {
        return Err(Malformed);
    }
    let len = number_at(events, at + 1, 2) as usize;
    let body = at + HEADER;
    let end = body + len;
    if events.len() < end || len < INDEX {
        return Err(Malformed);
    }
    let index = number_at(events, body, INDEX);
    // Nothing of the event is read past its body's end.
    let event = read_body(&events[..end], events[at], index, body + INDEX)?;
    Ok((event, end))
}
