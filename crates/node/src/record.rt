// Records by number. (E2, N3.)
ghost use Rattle.std.specs.Prelude.{◌≡◌};
ghost use Rattle.node.specs.Record.{record_at};

use records::record::{Node, RECORD_WIDTH, read_record};
use schema::record::Kind;

// Record number `n`, if it exists: it lies whole in the buffer, and its kind is one of the eight.
#[tactic(auto, unfolding(crate::specs::Record::record_at, crate::specs::Record::existing))]
pub fn get_record(records: &[u32], n: usize) -> Option<Node>
    ensures { result ≡ record_at records.now n }
{
    if records.len() / RECORD_WIDTH <= n {
        return None;
    }
    let x = read_record(records, n);
    Kind::try_from(x.kind).is_ok().then_some(x)
}
