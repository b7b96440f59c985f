// Where collections start and end, and their records. (01: Reading rules, Collection end; S2, S3, E2.)
// Bounds in contracts are an index's (`at ≤ length text`) or a 32-bit number's (`≤ text_limit`): a type for each would be made and taken
// apart at one call.
ghost use Rattle.std.specs.Prelude.{IfSome, ◌≡◌, ◌+◌, ◌-◌, ◌≤◌, ◌<◌, length};
ghost use Rattle.utf8.specs.Boundary.{Boundary};
ghost use Rattle.text.specs.Admission.{text_limit};
ghost use Rattle.event.specs.Read.{events_limit};
ghost use Rattle.schema.specs.Record.{number_of};
ghost use Rattle.records.specs.Record.{extent};
ghost use Rattle.spans.specs.Collection.{closes, collection_kind, members, collection_end, collection_start, collection_over, collection_node};

use crate::open::{Collection, Open};
use crate::scalar::{step_past, tag_info};
use records::record::{ABSENT, Extent, NO_LIST, Node};
use schema::record::{Kind, Payload};
use text::admission::{Admitted, AdmittedPlace};
use utf8::utf8::byte_at;

// Whether the end of such a collection ends `o`: it is of that kind, and no key is without its value.
#[tactic(auto, unfolding(crate::specs::Collection::closes))]
pub fn closes_open(collection: Collection, o: Open) -> bool
    ensures { result ≡ closes collection o }
{
    match collection {
        Collection::Sequence => o.collection == Collection::Sequence,
        Collection::Mapping => o.collection == Collection::Mapping && o.children % 2 == 0,
    }
}

// The end of a collection whose end's marker stands at `at`: past the closing bracket, if that stands there.
#[tactic(auto, unfolding(crate::specs::Collection::collection_end))]
fn collection_end(text: &[u8], collection: Collection, at: usize) -> usize
    requires { at ≤ length text.now }
    ensures { result ≡ collection_end text.now collection at }
{
    let bracket = match collection {
        Collection::Sequence => b']',
        Collection::Mapping => b'}',
    };
    step_past(text, bracket, at)
}

// The start of a collection: a mapping that stands on no `{` starts at its first key.
#[tactic(auto, unfolding(crate::specs::Collection::collection_start))]
fn collection_start(text: &[u8], o: Open) -> usize
    ensures { result ≡ collection_start text.now o }
{
    let start = o.start as usize;
    match o.first {
        Some(first) if o.collection == Collection::Mapping && byte_at(text, start) != b'{' => {
            first as usize
        }
        _ => start,
    }
}

// Children of an array, pairs of a hash.
#[tactic(auto, unfolding(crate::specs::Collection::members))]
fn member_count(o: Open) -> u32
    ensures { result ≡ members o }
{
    match o.collection {
        Collection::Sequence => o.children,
        Collection::Mapping => o.children / 2,
    }
}

impl From<Collection> for Kind {
    ghost from_gives = { λ collection kind. number_of kind ≡ collection_kind collection };

    fn from(collection: Collection) -> Kind {
        match collection {
            Collection::Sequence => Kind::Array,
            Collection::Mapping => Kind::Hash,
        }
    }
}

// The bytes from `start` to `end`, none where that comes first.
fn extent_to(start: usize, end: usize) -> Extent
    requires { (start ≤ text_limit) × (end ≤ text_limit) }
    ensures { result ≡ extent start (start + (end - start)) }
{
    Extent {
        start: start as u32,
        end: start.max(end) as u32,
    }
}

// The record of a collection from `start` to `end`; a negative length is 0.
#[tactic(auto, unfolding(crate::specs::Collection::collection_over))]
fn collection_over(start: AdmittedPlace<'_>, o: Open, end: usize, nodes: usize) -> Node
    requires end_in_bounds { end ≤ length start.text.bytes.now }
    requires before_le_nodes { (o.before ≤ nodes) × (nodes < events_limit) }
    ensures { result ≡ collection_over start.entry.text.bytes.now o start.entry.at end nodes }
{
    Node {
        kind: Kind::from(o.collection).into(),
        extent: extent_to(start.at, end),
        tag: tag_info(start, o.suffix),
        subtree: nodes as u32 - o.before + 1,
        list: NO_LIST,
        payload: Payload {
            first: member_count(o),
            second: 0,
        },
        parent: ABSENT,
        measured: 1,
    }
}

// The record of `o`, whose end's marker stands at `at`, after `nodes` nodes.
#[tactic(auto, unfolding(crate::specs::Collection::collection_node))]
pub fn collection_node(text: Admitted<'_>, o: Open, at: usize, nodes: usize) -> Node
    requires boundary { Boundary text.bytes.now o.start × IfSome o.first (Boundary text.bytes.now) }
    requires at_in_bounds { at ≤ length text.bytes.now }
    requires before_le_nodes { (o.before ≤ nodes) × (nodes < events_limit) }
    ensures { result ≡ collection_node text.entry.bytes.now o at nodes }
{
    let start = AdmittedPlace {
        text,
        at: collection_start(text.bytes, o),
    };
    let end = collection_end(text.bytes, o.collection, at);
    collection_over(start, o, end, nodes)
}
