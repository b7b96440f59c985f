// Where a node stands: its span, and whether that was measured, its tag, its pieces. (01: `source_info`, `tag`, `content_source_info`; N3.
// 02: (c).)
ghost use Rattle.std.specs.Prelude.{◌≡◌};
ghost use Rattle.node.specs.Source.{span_at, is_measured_at, tag_of, piece_list_at};

use crate::record::get_record;
use records::record::{ABSENT, Extent, NO_TAG, PieceList, TagInfo};

// The bytes of the text that record `n` spans.
#[tactic(auto, unfolding(crate::specs::Source::span_at))]
pub fn source_info(records: &[u32], n: usize) -> Option<Extent>
    ensures { result ≡ span_at records.now n }
{
    get_record(records, n).map(|x| x.extent)
}

// Whether the span of record `n` was measured, as it says: 1 or 0 in a record that was built.
#[tactic(auto, unfolding(crate::specs::Source::is_measured_at))]
pub fn is_measured(records: &[u32], n: usize) -> Option<u32>
    ensures { result ≡ is_measured_at records.now n }
{
    get_record(records, n).map(|x| x.measured)
}

// The tag's span in the text, and its suffix's place and length in the event bytes.
#[tactic(auto, unfolding(crate::specs::Source::tag_of, crate::specs::Source::is_absent))]
pub fn tag(records: &[u32], n: usize) -> Option<TagInfo>
    ensures { result ≡ tag_of records.now n }
{
    let tag = get_record(records, n)?.tag;
    (tag != NO_TAG).then_some(tag)
}

// The first piece of a scalar and how many it has; an empty list is a list.
#[tactic(auto, unfolding(crate::specs::Source::piece_list_at))]
pub fn content_source_info(records: &[u32], n: usize) -> Option<PieceList>
    ensures { result ≡ piece_list_at records.now n }
{
    let x = get_record(records, n)?;
    (x.is_scalar() && x.list.first != ABSENT).then_some(x.list)
}
