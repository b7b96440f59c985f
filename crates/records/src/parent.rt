// Parents: written once the parent is complete. (02: (c).)
ghost use Rattle.std.specs.Prelude.{◌≡◌, ◌<◌};
ghost use Rattle.records.specs.Record.{absent};
ghost use Rattle.records.specs.Adopt.{adopted, Chain};

use crate::record::{put_parent, read_record};

// The record number `parent` is about to be put: each of its `children` children gets that number. They are found from the last to the
// first, by their subtree counts.
pub fn adopt(records: &mut [u32], parent: usize, children: u32)
    requires chain { Chain records.old children parent }
    requires parent_fits { parent < absent }
    ensures { records.new ≡ adopted records.old parent children parent }
{
    let mut end = parent;
    for _ in 0..children {
        let child = end - 1;
        end -= read_record(records, child).subtree as usize;
        put_parent(records, child, parent as u32);
    }
}
