// The tag property before a node, and the tag's span, found or guessed. (01: Reading rules, Tag span; S9, P6, F1, K12.)
ghost use Rattle.std.specs.Prelude.{◌≡◌};
ghost use Rattle.utf8.specs.Boundary.{Boundary};
ghost use Rattle.tag.specs.Tag.{property_span, tag_property, tag_offset, tag_span};

use crate::token::{back_over, opening_len};
use utf8::utf8::{Place, Utf8Bytes, byte_at};
use utf8::white_space::is_white_space;

// What a tag and an anchor begin with.
const TAG: u8 = b'!';

const ANCHOR: u8 = b'&';

// The bytes from `start` to `end`, `end` not counted in.
#[derive(Clone, Copy, Debug, PartialEq, Eq)]
pub struct TagSpan {
    pub start: usize,
    pub end: usize,
}

// The span of the tag property before the node at `at`, the empty one there where it has none. Found going back token by token: a loop,
// since how far each token reaches back is read. Text, place and span are numbers in registers, so that of two searches from one node the
// compiler makes one: see `make_tag_info`.
fn find_property(text: Utf8Bytes<'_>, at: usize) -> TagSpan
    requires { Boundary text.bytes.now at }
    ensures { result ≡ property_span text.entry.bytes.now at }
{
    let mut before = at;
    loop {
        let end = back_over(Place { text, at: before }, is_white_space);
        let start = back_over(end, |c| !is_white_space(c));
        let token = &text.bytes[start.at..end.at];
        let dropped = opening_len(token);
        match byte_at(token, dropped) {
            TAG => {
                return TagSpan {
                    start: start.at + dropped,
                    end: end.at,
                };
            }
            ANCHOR => before = start.at,
            _ => return TagSpan { start: at, end: at },
        }
    }
}

// The tag property before a node, as a part of the text; where there is none an empty part and no `Option`, as 01 has it (F1).
pub fn find_tag_span(node: Place<'_>) -> &[u8]
    ensures { result.now ≡ tag_property node.entry.text.bytes.now node.entry.at }
{
    let found = find_property(node.text, node.at);
    let start = found.start;
    &node.text.bytes[start..found.end]
}

// The byte offset of that part; the node's where there is no property.
#[tactic(auto, unfolding(crate::specs::Tag::tag_offset, crate::specs::Tag::property_span))]
pub fn find_tag_offset(node: Place<'_>) -> usize
    ensures { result ≡ tag_offset node.entry.text.bytes.now node.entry.at }
{
    find_property(node.text, node.at).start
}

// The span of a node's tag, its suffix being `suffix` bytes long: the property before the node, as long as the part handed back, or else a
// guess, 1 plus the suffix's bytes from the node's start, cut to the text left. 01 has the part and its offset as two functions (F1), so
// the offset is a second search; only a property that was found is searched for again.
pub fn make_tag_info(node: Place<'_>, suffix: usize) -> TagSpan
    ensures { result ≡ tag_span node.entry.text.bytes.now node.entry.at suffix }
{
    let property = find_tag_span(node);
    if !property.is_empty() {
        let start = find_tag_offset(node);
        return TagSpan {
            start,
            end: start + property.len(),
        };
    }
    let left = node.text.bytes.len() - node.at;
    TagSpan {
        start: node.at,
        end: node.at + suffix.saturating_add(1).min(left),
    }
}
