// All that is asked about one record, in the order of the oracle.
//
// Most questions need the records alone, and `replay_damaged` asks with nothing else: they are functions of these. Only those that ask for
// keys are methods of a `Subject`.
ghost use Rattle.std.specs.Prelude.{◌≡◌, false, unwrap_or};
ghost use Rattle.node.specs.Kind.{len_at, is_hash_at};
ghost use Rattle.replay_accessors.specs.Matched.{matched_of, match_all};
ghost use Rattle.replay_accessors.specs.Questions.{kind_numbers, source_numbers, about_family, about_itself, at_index, about_children, about_key, about_keys, about_record};

use crate::matched::Matcher;
use node::child::{get_array_item, last_child, parent};
use node::entry::hash_entry;
use node::kind::{is_array, is_empty, is_hash, is_scalar, len};
use node::record::get_record;
use node::search::get_hash_value;
use node::source::{content_source_info, is_measured, source_info, tag};
use replay::case::{bytes_at, number_at};

// The bytes that say where a key is: its place and its length.
const KEY_BYTES: usize = 8;

const LENGTH_AT: usize = 4;

// What kind of node the record is.
#[tactic(auto, using(crate::proofs::Matching::in_turn))]
fn about_kind(records: &[u32], n: usize, m: &mut Matcher<'_>)
    ensures { matched_of m.new ≡ match_all (matched_of m.old) (kind_numbers records.now n) }
{
    m.flag(is_scalar(records, n));
    m.flag(is_array(records, n));
    m.flag(is_hash(records, n));
    m.count(len(records, n));
    m.flag(is_empty(records, n));
}

// Where the node stands.
#[tactic(auto, using(crate::proofs::Matching::in_turn))]
fn about_source(records: &[u32], n: usize, m: &mut Matcher<'_>)
    ensures { matched_of m.new ≡ match_all (matched_of m.old) (source_numbers records.now n) }
{
    m.span(source_info(records, n));
    m.tagged(tag(records, n));
    m.pieces(content_source_info(records, n));
}

// Its last child, its parent, and whether its span was measured.
#[tactic(auto, using(crate::proofs::Matching::in_turn))]
fn about_family(records: &[u32], n: usize, m: &mut Matcher<'_>)
    ensures { matched_of m.new ≡ about_family records.now n (matched_of m.old) }
{
    m.place(last_child(records, n));
    m.count(parent(records, n));
    m.count(is_measured(records, n));
}

// What is asked of the record itself.
#[tactic(auto, using(crate::proofs::Matching::in_turn))]
fn about_itself(records: &[u32], n: usize, m: &mut Matcher<'_>)
    ensures { matched_of m.new ≡ about_itself records.now n (matched_of m.old) }
{
    m.lookup(get_record(records, n));
    about_kind(records, n, m);
    about_source(records, n, m);
    about_family(records, n, m);
}

// How many children or pairs a record says it has; 0 for a missing one.
pub fn len_or_zero(records: &[u32], n: usize) -> usize
    ensures { result ≡ unwrap_or (len_at records.now n) 0 }
{
    len(records, n).unwrap_or(0) as usize
}

// Whether a record is there and is a hash.
pub fn is_hash_there(records: &[u32], n: usize) -> bool
    ensures { result ≡ unwrap_or (is_hash_at records.now n) false }
{
    is_hash(records, n).unwrap_or(false)
}

// The item and the pair at an index.
pub fn at_index(records: &[u32], n: usize, i: usize, m: &mut Matcher<'_>)
    ensures { matched_of m.new ≡ at_index records.now n i (matched_of m.old) }
{
    m.place(get_array_item(records, n, i));
    m.entry(hash_entry(records, n, i));
}

// The items and pairs from the index past the last one down, at most `limit` besides that.
#[tactic(auto, unfolding(crate::specs::Questions::from_last))]
fn about_children(records: &[u32], n: usize, limit: usize, m: &mut Matcher<'_>)
    ensures { matched_of m.new ≡ about_children records.now n limit (matched_of m.old) }
{
    let count = len_or_zero(records, n);
    at_index(records, n, count, m);
    for i in (count.saturating_sub(limit)..count).rev() {
        at_index(records, n, i, m);
    }
}

// What is asked: records, the event bytes that they name, and the places of the keys to ask for.
#[derive(Clone, Copy)]
pub struct Subject<'a> {
    pub records: &'a [u32],
    pub events: &'a [u8],
    pub keys: &'a [u8],
}

impl Subject<'_> {
    // The value of the key whose place and length stand at `at` of the keys.
    #[tactic(auto, unfolding(crate::specs::Questions::about_key))]
    fn about_key(self, n: usize, at: usize, m: &mut Matcher<'_>)
        ensures { matched_of m.new ≡ about_key self.entry.records.now self.entry.events.now n self.entry.keys.now at (matched_of m.old) }
    {
        if self.keys.len() <= at {
            m.differ();
            return;
        }
        let place = number_at(self.keys, at) as usize;
        let len = number_at(self.keys, at + LENGTH_AT) as usize;
        let key = bytes_at(self.events, place, len);
        m.place(get_hash_value(self.records, self.events, n, key));
    }

    // The values of all keys.
    #[tactic(auto, unfolding(crate::specs::Questions::first_keys))]
    fn about_keys(self, n: usize, m: &mut Matcher<'_>)
        ensures { matched_of m.new ≡ about_keys self.entry.records.now self.entry.events.now n self.entry.keys.now (matched_of m.old) }
    {
        for at in (0..self.keys.len()).step_by(KEY_BYTES) {
            self.about_key(n, at, m);
        }
    }

    // All questions about record `n`. A record that is no hash is asked for the first key alone.
    #[tactic(auto, unfolding(crate::specs::Questions::about_record))]
    pub fn about(self, n: usize, limit: usize, m: &mut Matcher<'_>)
        ensures { matched_of m.new ≡ about_record self.entry.records.now self.entry.events.now n limit self.entry.keys.now (matched_of m.old) }
    {
        about_itself(self.records, n, m);
        about_children(self.records, n, limit, m);
        if is_hash_there(self.records, n) {
            self.about_keys(n, m);
        } else {
            self.about_key(n, 0, m);
        }
    }
}
