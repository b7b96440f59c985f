// A node's record: fourteen numbers. Of the library's code only `Node::read` and the array's `from` know where each stands, and
// `put_parent` the place of one. (01: Events, records, pieces; E2. 02: (c).)
ghost use Rattle.std.specs.Prelude.{◌≡◌, ◌/◌, ◌≤◌, ◌<◌, eqb, ltb, length};
ghost use Rattle.schema.specs.Record.{number_of};
ghost use Rattle.schema.specs.declared.record.Kind.TheVariants as kind;
ghost use Rattle.records.specs.Record.{record_width, node_numbers, node_of, with_list};
ghost use Rattle.records.specs.Layout.{stored, parent_stored, node_at};

use crate::buffer::put;
use schema::record::{Kind, Payload};

// What stands where there is none: no tag, no piece list, no parent. A number, as in the layout: a lent buffer may hold any numbers, and
// `Node::read` hands them back as they are.
pub const ABSENT: u32 = 0xffff_ffff;

// How many numbers a record has.
pub const RECORD_WIDTH: usize = 14;

// Where the parent stands, the one number that is written after its record.
const AT_PARENT: usize = 12;

// The bytes from `start` to `end`, `end` not counted in.
#[derive(Clone, Copy, Debug, PartialEq, Eq)]
pub struct Extent {
    pub start: u32,
    pub end: u32,
}

// A tag: its span in the text, the place of its suffix in the event bytes, and the suffix's length; all four ABSENT for none.
#[derive(Clone, Copy, Debug, PartialEq, Eq)]
pub struct TagInfo {
    pub start: u32,
    pub end: u32,
    pub suffix: u32,
    pub len: u32,
}

// A scalar's pieces: the number of the first and how many; ABSENT and 0 for no list.
#[derive(Clone, Copy, Debug, PartialEq, Eq)]
pub struct PieceList {
    pub first: u32,
    pub count: u32,
}

#[derive(Clone, Copy, Debug, PartialEq, Eq)]
pub struct Node {
    // A kind's number, as in the layout: a lent buffer may hold any, and `Node::read` hands it back.
    pub kind: u32,
    pub extent: Extent,
    pub tag: TagInfo,
    // Records in its subtree, itself counted.
    pub subtree: u32,
    pub list: PieceList,
    pub payload: Payload,
    // The record of the collection whose child it is; ABSENT where there is none, and until that is complete.
    pub parent: u32,
    // 1 where the span was measured, 0 where it was assumed; 1 for collections and aliases. A number, as the kind is.
    pub measured: u32,
}

// As `ABSENT`: the layout's numbers for none.
pub const NO_TAG: TagInfo = TagInfo {
    start: ABSENT,
    end: ABSENT,
    suffix: ABSENT,
    len: ABSENT,
};

pub const NO_LIST: PieceList = PieceList {
    first: ABSENT,
    count: 0,
};

impl Node {
    // The node whose numbers come first.
    #[tactic(auto, unfolding(crate::specs::Record::node_of))]
    pub fn read(numbers: &[u32]) -> Node
        requires { record_width ≤ length numbers.now }
        ensures { result ≡ node_of numbers.now }
    {
        Node {
            kind: numbers[0],
            extent: Extent {
                start: numbers[1],
                end: numbers[2],
            },
            tag: TagInfo {
                start: numbers[3],
                end: numbers[4],
                suffix: numbers[5],
                len: numbers[6],
            },
            subtree: numbers[7],
            list: PieceList {
                first: numbers[8],
                count: numbers[9],
            },
            payload: Payload {
                first: numbers[10],
                second: numbers[11],
            },
            parent: numbers[12],
            measured: numbers[13],
        }
    }

    // Whether it is of this kind.
    pub fn is(self, kind: Kind) -> bool
        ensures { result ≡ eqb self.kind (number_of kind) }
    {
        self.kind == u32::from(kind)
    }

    // Whether it is neither an array nor a hash, the two last kinds.
    pub fn is_scalar(self) -> bool
        ensures { result ≡ ltb self.kind (number_of kind.Array) }
    {
        self.kind < u32::from(Kind::Array)
    }

    // The node with the `count` pieces from number `first` on.
    pub fn with_list(self, first: u32, count: u32) -> Node
        ensures { result ≡ with_list self first count }
    {
        Node {
            list: PieceList { first, count },
            ..self
        }
    }
}

// The numbers of a record in their order.
impl From<Node> for [u32; RECORD_WIDTH] {
    ghost from_gives = { λ x numbers. numbers ≡ node_numbers x };

    #[tactic(auto, unfolding(crate::specs::Record::node_numbers))]
    fn from(x: Node) -> [u32; RECORD_WIDTH] {
        [
            x.kind,
            x.extent.start,
            x.extent.end,
            x.tag.start,
            x.tag.end,
            x.tag.suffix,
            x.tag.len,
            x.subtree,
            x.list.first,
            x.list.count,
            x.payload.first,
            x.payload.second,
            x.parent,
            x.measured,
        ]
    }
}

// The record of `x` is written as number `n`.
#[tactic(auto, unfolding(crate::specs::Layout::stored))]
pub fn put_record(records: &mut [u32], n: usize, x: Node)
    requires { n < length records.old / record_width }
    ensures { records.new ≡ stored records.old n x }
{
    let numbers: [u32; RECORD_WIDTH] = x.into();
    put(records, RECORD_WIDTH * n, &numbers);
}

// The record that is written as number `n`.
pub fn read_record(records: &[u32], n: usize) -> Node
    requires { n < length records.now / record_width }
    ensures { result ≡ node_at records.now n }
{
    Node::read(&records[RECORD_WIDTH * n..])
}

// The parent of record `n` is written.
#[tactic(auto, unfolding(crate::specs::Layout::parent_stored))]
pub fn put_parent(records: &mut [u32], n: usize, parent: u32)
    requires { n < length records.old / record_width }
    ensures { records.new ≡ parent_stored records.old n parent }
{
    records[RECORD_WIDTH * n + AT_PARENT] = parent;
}
