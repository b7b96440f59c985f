// Children and the parent by their records' numbers. (01: `get_array_item`; the last child is n − 1, the child before c is c less c's subtree
// count; N3. 02: (c).)
//
// Going from the last child back by `child_before` costs one step a child. By index it costs the distance from the last.
ghost use Rattle.std.specs.Prelude.{◌≡◌};
ghost use Rattle.node.specs.Kind.{children};
ghost use Rattle.node.specs.Child.{place_at, record_before, last_child, child_before, steps_back, child_from_last, array_item, parent_at};

use crate::kind::{len, members};
use crate::record::get_record;
use records::record::Node;
use schema::record::Kind;

// The number itself, if the record exists.
#[tactic(auto, unfolding(crate::specs::Child::place_at))]
fn existing_place(records: &[u32], n: usize) -> Option<usize>
    ensures { result ≡ place_at records.now n }
{
    get_record(records, n)?;
    Some(n)
}

// The record before number `n`: the root of a buffer in which `n` nodes were built.
#[tactic(auto, unfolding(crate::specs::Child::record_before))]
pub fn record_before(records: &[u32], n: usize) -> Option<usize>
    ensures { result ≡ record_before records.now n }
{
    existing_place(records, n.checked_sub(1)?)
}

// The last item of an array, or the value of a hash's last pair.
#[tactic(auto, unfolding(crate::specs::Child::last_child))]
pub fn last_child(records: &[u32], n: usize) -> Option<usize>
    ensures { result ≡ last_child records.now n }
{
    if len(records, n)? == 0 {
        return None;
    }
    record_before(records, n)
}

// The child before `c`, where `c` is not its collection's first child; how many there are says `len`.
#[tactic(auto, unfolding(crate::specs::Child::child_before))]
pub fn child_before(records: &[u32], c: usize) -> Option<usize>
    ensures { result ≡ child_before records.now c }
{
    let count = get_record(records, c)?.subtree as usize;
    if count == 0 {
        return None;
    }
    existing_place(records, c.checked_sub(count)?)
}

// The child `k` before `c`.
#[tactic(auto, using(crate::proofs::Steps::step_none, crate::proofs::Steps::step_done))]
fn steps_back(records: &[u32], c: usize, k: usize) -> Option<usize>
    ensures { result ≡ steps_back records.now k c }
{
    let mut at = c;
    for _ in 0..k {
        at = child_before(records, at)?;
    }
    Some(at)
}

// How many children a node has: the items of an array, the keys and values of a hash.
pub fn child_count(x: Node) -> usize
    ensures { result ≡ children x }
{
    let count = x.payload.first as usize;
    if x.is_scalar() {
        0
    } else if x.is(Kind::Hash) {
        2 * count
    } else {
        count
    }
}

// The child `k` before the last child of `n`, if it has so many.
#[tactic(auto, unfolding(crate::specs::Child::child_from_last))]
pub fn child_from_last(records: &[u32], n: usize, k: usize) -> Option<usize>
    ensures { result ≡ child_from_last records.now n k }
{
    if child_count(get_record(records, n)?) <= k {
        return None;
    }
    steps_back(records, record_before(records, n)?, k)
}

// Item `i` of the array `n`, from 0.
#[tactic(auto, unfolding(crate::specs::Child::array_item))]
pub fn get_array_item(records: &[u32], n: usize, i: usize) -> Option<usize>
    ensures { result ≡ array_item records.now n i }
{
    let items = members(records, n, Kind::Array.into())? as usize;
    if items <= i {
        return None;
    }
    child_from_last(records, n, items - 1 - i)
}

// The parent of record `n`, as it says; none is ABSENT, and a missing record says nothing.
#[tactic(auto, unfolding(crate::specs::Child::parent_at))]
pub fn parent(records: &[u32], n: usize) -> Option<u32>
    ensures { result ≡ parent_at records.now n }
{
    get_record(records, n).map(|x| x.parent)
}
