// What a node is, and how many children it has. (01: `is_scalar`, `is_array`, `is_hash`, `len`, `is_empty`; N3.)
ghost use Rattle.std.specs.Prelude.{◌≡◌};
ghost use Rattle.node.specs.Kind.{is_scalar_at, is_array_at, is_hash_at, members_at, len_at, is_empty_at};

use crate::record::get_record;
use schema::record::Kind;

// Whether record `n` is neither an array nor a hash.
#[tactic(auto, unfolding(crate::specs::Kind::is_scalar_at))]
pub fn is_scalar(records: &[u32], n: usize) -> Option<bool>
    ensures { result ≡ is_scalar_at records.now n }
{
    get_record(records, n).map(|x| x.is_scalar())
}

#[tactic(auto, unfolding(crate::specs::Kind::is_array_at))]
pub fn is_array(records: &[u32], n: usize) -> Option<bool>
    ensures { result ≡ is_array_at records.now n }
{
    get_record(records, n).map(|x| x.is(Kind::Array))
}

#[tactic(auto, unfolding(crate::specs::Kind::is_hash_at))]
pub fn is_hash(records: &[u32], n: usize) -> Option<bool>
    ensures { result ≡ is_hash_at records.now n }
{
    get_record(records, n).map(|x| x.is(Kind::Hash))
}

// How many items or pairs record `n` says that it has, if it is of the kind with this number. A `Kind` would ask more of callers than the
// number that it always took.
pub fn members(records: &[u32], n: usize, kind: u32) -> Option<u32>
    ensures { result ≡ members_at records.now n kind }
{
    let x = get_record(records, n)?;
    (x.kind == kind).then_some(x.payload.first)
}

// The items of an array, the pairs of a hash, 0 for a scalar; as the record says, whether or not they are there.
#[tactic(auto, unfolding(crate::specs::Kind::len_at))]
pub fn len(records: &[u32], n: usize) -> Option<u32>
    ensures { result ≡ len_at records.now n }
{
    let x = get_record(records, n)?;
    Some(if x.is_scalar() { 0 } else { x.payload.first })
}

#[tactic(auto, unfolding(crate::specs::Kind::is_empty_at))]
pub fn is_empty(records: &[u32], n: usize) -> Option<bool>
    ensures { result ≡ is_empty_at records.now n }
{
    len(records, n).map(|k| k == 0)
}
