// The pairs of a hash. (01: `YamlHashEntry`; N2, N3.)
ghost use Rattle.std.specs.Prelude.{◌≡◌};
ghost use Rattle.node.specs.Entry.{pair_ending, hash_entry};

use crate::child::{child_before, child_from_last};
use crate::kind::members;
use crate::source::source_info;
use records::record::Extent;
use schema::record::Kind;

// The records of a key and its value, the span of each, and the span from the key's start to the value's end.
#[derive(Clone, Copy, Debug, PartialEq, Eq)]
pub struct YamlHashEntry {
    pub key: usize,
    pub value: usize,
    pub key_span: Extent,
    pub value_span: Extent,
    pub entry_span: Extent,
}

// The pair whose value is record `v`; its key is the child before.
#[tactic(auto, unfolding(crate::specs::Entry::pair_ending, crate::specs::Source::span_at))]
pub fn pair_ending(records: &[u32], v: usize) -> Option<YamlHashEntry>
    ensures { result ≡ pair_ending records.now v }
{
    let value_span = source_info(records, v)?;
    let key = child_before(records, v)?;
    let key_span = source_info(records, key)?;
    Some(YamlHashEntry {
        key,
        value: v,
        key_span,
        value_span,
        entry_span: Extent {
            start: key_span.start,
            end: value_span.end,
        },
    })
}

// Pair `i` of the hash `n`, from 0.
#[tactic(auto, unfolding(crate::specs::Entry::hash_entry))]
pub fn hash_entry(records: &[u32], n: usize, i: usize) -> Option<YamlHashEntry>
    ensures { result ≡ hash_entry records.now n i }
{
    let pairs = members(records, n, Kind::Hash.into())? as usize;
    if pairs <= i {
        return None;
    }
    pair_ending(records, child_from_last(records, n, 2 * (pairs - 1 - i))?)
}
