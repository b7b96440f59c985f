// Scalars: their start, span, tag and pieces, what they are, and their record without pieces.
// (01: Reading rules, Start; S1, N1, E2. 02: (b), (c).)
// Bounds in contracts are an index's (`at ≤ length text`) or a 32-bit number's (`≤ text_limit`): a type for each would be made and taken
// apart at one call.
ghost use Rattle.std.specs.Prelude.{◌≡◌, ◌+◌, ◌≤◌, length};
ghost use Rattle.text.specs.Admission.{text_limit};
ghost use Rattle.event.specs.Proved.{TextParts};
ghost use Rattle.provenance.specs.Layout.{room, zeros, buffer_of};
ghost use Rattle.spans.specs.Scalar.{mark_of, step_past, scalar_start, scalar_from, list_at, suffix_of, tag_info, resolved_by};
ghost use Rattle.spans.specs.Scalar.{scalar_over, event_scalar};
ghost use Rattle.spans.specs.Fits.{TagFits, EventFits, scalar_entry, event_entry};

use crate::open::Suffix;
use event::string::Part;
use event::tag::YamlTag;
use measure::length::Measure;
use measure::scalar::scalar_len;
use provenance::scalar::scalar_provenance;
use provenance::walk::Walked;
use records::record::{ABSENT, Extent, NO_LIST, NO_TAG, Node, TagInfo};
use schema::plain::Resolved;
use schema::record::{kind_number, payload_of};
use schema::tag::{Tag, resolve_scalar};
use style::Style;
use tag::property::make_tag_info;
use text::admission::{Admitted, AdmittedPlace};
use utf8::utf8::byte_at;

// What an event gives of a scalar beside its tag and value: its marker's index and column, its style by any number, and whether its span is
// empty. It stands apart from `Event::Scalar` since the call on one scalar has a mark too, and neither tag nor event bytes.
#[derive(Clone, Copy, Debug, PartialEq, Eq)]
pub struct ScalarMark {
    pub index: u32,
    pub column: u32,
    pub style: u8,
    pub empty: bool,
}

// All that an event gives of a scalar: the value is a part of the event bytes.
#[derive(Clone, Copy, Debug, PartialEq, Eq)]
pub struct ScalarEvent {
    pub mark: ScalarMark,
    pub tag: Option<YamlTag>,
    pub value: Part,
}

// A scalar's record, with no list yet, and what its walk answered.
#[derive(Clone, Copy, Debug, PartialEq, Eq)]
pub struct ScalarEntry {
    pub node: Node,
    pub walked: Walked,
}

// The place after `byte` where it stands at `at`, else `at`.
#[tactic(auto, unfolding(crate::specs::Scalar::step_past))]
pub fn step_past(text: &[u8], byte: u8, at: usize) -> usize
    requires { at ≤ length text.now }
    ensures { result ≡ step_past text.now byte at }
{
    if byte_at(text, at) == byte {
        at + 1
    } else {
        at
    }
}

// The start of a scalar whose marker stands at `at`: an empty plain one that is awaited as a mapping's value steps past its colon.
#[tactic(auto, unfolding(crate::specs::Scalar::scalar_start))]
fn scalar_start<'a>(
    at: AdmittedPlace<'a>,
    value: &[u8],
    style: u8,
    awaited: bool,
) -> AdmittedPlace<'a>
    ensures same_text { result.text.bytes.now ≡ at.entry.text.bytes.now }
    ensures value { result.at ≡ scalar_start at.entry.text.bytes.now at.entry.at value.now style awaited }
{
    if awaited && Style::of(style) == Style::Plain && value.is_empty() {
        AdmittedPlace {
            text: at.text,
            at: step_past(at.text.bytes, b':', at.at),
        }
    } else {
        at
    }
}

// The suffix of a tag, as a record has it.
pub fn suffix_of(tag: Option<YamlTag>) -> Option<Suffix>
    requires { TagFits tag }
    ensures { result ≡ suffix_of tag }
{
    let YamlTag { suffix, .. } = tag?;
    Some(Suffix {
        place: suffix.at as u32,
        len: suffix.len as u32,
    })
}

// The tag of a node that starts at `start`, its span searched from there.
#[tactic(auto, unfolding(crate::specs::Scalar::tag_info))]
pub fn tag_info(start: AdmittedPlace<'_>, suffix: Option<Suffix>) -> TagInfo
    ensures { result ≡ tag_info start.entry.text.bytes.now start.entry.at suffix }
{
    let Some(Suffix { place, len }) = suffix else {
        return NO_TAG;
    };
    let span = make_tag_info(start.place(), len as usize);
    TagInfo {
        start: span.start as u32,
        end: span.end as u32,
        suffix: place,
        len,
    }
}

// What a scalar is, by its value, style and tag.
#[tactic(auto, unfolding(crate::specs::Scalar::resolved_by))]
fn resolve(events: &[u8], value: &[u8], style: u8, tag: Option<YamlTag>) -> Resolved
    requires { TextParts events.now tag }
    ensures { result ≡ resolved_by events.now value.now style tag }
{
    let tag = tag.map(|t| Tag {
        handle: t.handle.bytes_in(events),
        suffix: t.suffix.bytes_in(events),
    });
    resolve_scalar(value, style, tag)
}

// The record of a scalar: its span goes from `start` as far as `span` says, which also says whether it was measured; its value of `len`
// bytes stands at `place`; no list and no parent yet.
#[tactic(auto, unfolding(crate::specs::Scalar::scalar_over))]
fn scalar_node(
    start: usize,
    span: Measure,
    place: u32,
    len: usize,
    tag: TagInfo,
    resolved: Resolved,
) -> Node
    requires { (start + span.len ≤ text_limit) × (len ≤ text_limit) }
    ensures { result ≡ scalar_over start span place len tag resolved }
{
    Node {
        kind: kind_number(resolved),
        extent: Extent {
            start: start as u32,
            end: (start + span.len) as u32,
        },
        tag,
        subtree: 1,
        list: NO_LIST,
        payload: payload_of(resolved, place, len as u32),
        parent: ABSENT,
        measured: span.measured.into(),
    }
}

// A scalar that starts at `start`: its record and its walk, which leaves its pieces in a buffer that is lent zero.
pub fn walk_scalar(
    start: AdmittedPlace<'_>,
    m: ScalarMark,
    value: Admitted<'_>,
    place: u32,
    tag: TagInfo,
    resolved: Resolved,
    pieces: &mut [u32],
) -> ScalarEntry
    requires pieces_zero { pieces.old ≡ zeros (length pieces.old) }
    ensures value { result ≡ scalar_entry (room (length pieces.old)) start.entry.text.bytes.now (scalar_from start.entry.at (mark_of m) value.entry.bytes.now place) tag resolved }
    ensures pieces_after { pieces.new ≡ buffer_of (length pieces.old) (list_at start.entry.text.bytes.now (scalar_from start.entry.at (mark_of m) value.entry.bytes.now place)) }
{
    let (text, at, column) = (start.text, start.at, m.column as usize);
    let rest = text.utf8().rest_from(at);
    let span = scalar_len(rest, value.utf8(), m.style, m.empty, column);
    let (text, value) = (text.bytes, value.bytes);
    let node = scalar_node(at, span, place, value.len(), tag, resolved);
    let walked = scalar_provenance(text, at, span.len, value, m.style, column, pieces);
    ScalarEntry { node, walked }
}

// The scalar of an event whose marker stands at `at`, awaited as a mapping's value or not.
pub fn event_scalar(
    at: AdmittedPlace<'_>,
    events: &[u8],
    awaited: bool,
    e: ScalarEvent,
    pieces: &mut [u32],
) -> ScalarEntry
    requires event_fits { EventFits events.now e }
    requires pieces_zero { pieces.old ≡ zeros (length pieces.old) }
    ensures value { result ≡ event_entry (room (length pieces.old)) at.entry.text.bytes.now events.now at.entry.at awaited e }
    ensures pieces_after { pieces.new ≡ buffer_of (length pieces.old) (list_at at.entry.text.bytes.now (event_scalar at.entry.text.bytes.now events.now at.entry.at awaited e)) }
{
    let value = Admitted {
        bytes: e.value.bytes_in(events),
    };
    let style = e.mark.style;
    let start = scalar_start(at, value.bytes, style, awaited);
    let tag = tag_info(start, suffix_of(e.tag));
    let resolved = resolve(events, value.bytes, style, e.tag);
    walk_scalar(
        start,
        e.mark,
        value,
        e.value.at as u32,
        tag,
        resolved,
        pieces,
    )
}
