// Values by key. (01: `get_hash_value`; N2, N3.)
ghost use Rattle.std.specs.Prelude.{◌≡◌, None};
ghost use Rattle.node.specs.Search.{string_is, key_is, search_back, hash_value};

use crate::child::{child_before, record_before};
use crate::entry::pair_ending;
use crate::kind::members;
use crate::record::get_record;
use records::record::Node;
use schema::record::Kind;

// Whether a node is a string with the bytes `key`.
#[tactic(auto, unfolding(crate::specs::Search::string_is))]
fn string_is(events: &[u8], key: &[u8], x: Node) -> bool
    ensures { result ≡ string_is events.now key.now x }
{
    let from = x.payload.first as usize;
    let end = from + x.payload.second as usize;
    x.is(Kind::Str) && events.get(from..end) == Some(key)
}

// Whether record `k` is a string with the bytes `key`.
#[tactic(auto, unfolding(crate::specs::Search::key_is))]
fn key_is(records: &[u32], events: &[u8], key: &[u8], k: usize) -> bool
    ensures { result ≡ key_is records.now events.now key.now k }
{
    get_record(records, k).is_some_and(|x| string_is(events, key, x))
}

// The value of the first pair with this key, of the pair whose value is `v` and the `count` pairs before it. One step a child.
#[tactic(auto, using(crate::proofs::Steps::pair_none, crate::proofs::Steps::pairs_none))]
fn search_back(records: &[u32], events: &[u8], key: &[u8], v: usize, count: usize) -> Option<usize>
    ensures { result ≡ search_back records.now events.now key.now count v None }
{
    let mut at = v;
    let mut found = None;
    for i in 0..=count {
        let pair = pair_ending(records, at)?;
        if key_is(records, events, key, pair.key) {
            found = Some(at);
        }
        if i < count {
            at = child_before(records, pair.key)?;
        }
    }
    found
}

// The value of the first pair of the hash `n` whose key is a string with the bytes `key`.
#[tactic(auto, unfolding(crate::specs::Search::hash_value))]
pub fn get_hash_value(records: &[u32], events: &[u8], n: usize, key: &[u8]) -> Option<usize>
    ensures { result ≡ hash_value records.now events.now n key.now }
{
    let before_last = (members(records, n, Kind::Hash.into())? as usize).checked_sub(1)?;
    search_back(
        records,
        events,
        key,
        record_before(records, n)?,
        before_last,
    )
}
