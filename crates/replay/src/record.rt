// A record in a list: fourteen numbers, four bytes each, high byte first. The places stand here once more, beside `Node::read` of the
// library: the programs judge its layout, and so do not read by it.

// Its bytes.
pub const RECORD_BYTES: usize = 56;

// Where its kind, its span, its tag's span and the length of the tag's suffix, its piece list, its payload, its parent and the flag
// of its span stand.
pub const KIND_AT: usize = 0;

pub const START_AT: usize = 4;

pub const END_AT: usize = 8;

pub const TAG_AT: usize = 12;

pub const SUFFIX_LEN_AT: usize = 24;

pub const FIRST_PIECE_AT: usize = 32;

pub const PIECE_COUNT_AT: usize = 36;

pub const PAYLOAD_AT: usize = 40;

pub const PARENT_AT: usize = 48;

pub const MEASURED_AT: usize = 52;
