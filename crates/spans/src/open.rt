// A collection that is open. (01: S2, S3, N2.)

// The suffix of a tag: its place in the event bytes and its length.
#[derive(Clone, Copy, Debug, PartialEq, Eq)]
pub struct Suffix {
    pub place: u32,
    pub len: u32,
}

// What kind of collection it is.
#[derive(Clone, Copy, Debug, PartialEq, Eq)]
pub enum Collection {
    Sequence,
    Mapping,
}

// An open collection.
#[derive(Clone, Copy, Debug, PartialEq, Eq)]
pub struct Open {
    pub collection: Collection,
    // The offset of its start's marker.
    pub start: u32,
    pub suffix: Option<Suffix>,
    // Nodes completed directly under it.
    pub children: u32,
    // Where the first of them starts; none until there is one.
    pub first: Option<u32>,
    // Nodes completed before it was opened.
    pub before: u32,
}
