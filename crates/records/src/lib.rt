// A node's record of fourteen numbers, and the two buffers that a caller lends: one of records, one of pieces. (01: Events, records, pieces.)
#![tactic(auto)]

pub mod buffer;
pub mod parent;
pub mod record;
