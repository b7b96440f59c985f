// Where a node stands. Answers of several numbers: `present` is 1, or 0 with all the others. Whether a span was measured is one number,
// 0xffff_ffff for none. (01: N2, N3. 02: (c).)
ghost use Rattle.std.specs.Prelude.{◌≡◌};
ghost use Rattle.node.specs.Source.{span_at, is_measured_at, tag_of, piece_list_at};
ghost use Rattle.node.specs.Entry.{hash_entry};
ghost use Rattle.quarto_yaml.specs.None.{or_none};
ghost use Rattle.quarto_yaml.specs.Found.{found_span, found_tag, found_pieces, found_entry};

use records::record::ABSENT;

// Bytes of the text.
#[repr(C)]
#[derive(Clone, Copy, Debug, Default, PartialEq, Eq)]
pub struct FoundSpan {
    pub present: u32,
    pub start: u32,
    pub end: u32,
}

// A tag's span in the text, and its suffix's place and length in the event bytes.
#[repr(C)]
#[derive(Clone, Copy, Debug, Default, PartialEq, Eq)]
pub struct FoundTag {
    pub present: u32,
    pub start: u32,
    pub end: u32,
    pub suffix: u32,
    pub len: u32,
}

// A scalar's first piece and how many.
#[repr(C)]
#[derive(Clone, Copy, Debug, Default, PartialEq, Eq)]
pub struct FoundPieces {
    pub present: u32,
    pub first: u32,
    pub count: u32,
}

// A pair's records, the span of each, and that of both.
#[repr(C)]
#[derive(Clone, Copy, Debug, Default, PartialEq, Eq)]
pub struct FoundEntry {
    pub present: u32,
    pub key: u32,
    pub value: u32,
    pub key_start: u32,
    pub key_end: u32,
    pub value_start: u32,
    pub value_end: u32,
    pub entry_start: u32,
    pub entry_end: u32,
}

#[unsafe(no_mangle)]
pub extern "C" fn quarto_yaml_source_info(records: &[u32], n: u32) -> FoundSpan
    ensures { result ≡ found_span (span_at records.now n) }
{
    let Some(e) = node::source::source_info(records, n as usize) else {
        return FoundSpan::default();
    };
    FoundSpan {
        present: 1,
        start: e.start,
        end: e.end,
    }
}

// As the record says: 1 or 0. A record that was not built here may say any number.
#[unsafe(no_mangle)]
pub extern "C" fn quarto_yaml_is_measured(records: &[u32], n: u32) -> u32
    ensures { result ≡ or_none (is_measured_at records.now n) }
{
    node::source::is_measured(records, n as usize).unwrap_or(ABSENT)
}

#[unsafe(no_mangle)]
pub extern "C" fn quarto_yaml_tag(records: &[u32], n: u32) -> FoundTag
    ensures { result ≡ found_tag (tag_of records.now n) }
{
    let Some(x) = node::source::tag(records, n as usize) else {
        return FoundTag::default();
    };
    FoundTag {
        present: 1,
        start: x.start,
        end: x.end,
        suffix: x.suffix,
        len: x.len,
    }
}

#[unsafe(no_mangle)]
pub extern "C" fn quarto_yaml_content_source_info(records: &[u32], n: u32) -> FoundPieces
    ensures { result ≡ found_pieces (piece_list_at records.now n) }
{
    let Some(l) = node::source::content_source_info(records, n as usize) else {
        return FoundPieces::default();
    };
    FoundPieces {
        present: 1,
        first: l.first,
        count: l.count,
    }
}

#[unsafe(no_mangle)]
pub extern "C" fn quarto_yaml_hash_entry(records: &[u32], n: u32, i: u32) -> FoundEntry
    ensures { result ≡ found_entry (hash_entry records.now n i) }
{
    let Some(x) = node::entry::hash_entry(records, n as usize, i as usize) else {
        return FoundEntry::default();
    };
    FoundEntry {
        present: 1,
        key: x.key as u32,
        value: x.value as u32,
        key_start: x.key_span.start,
        key_end: x.key_span.end,
        value_start: x.value_span.start,
        value_end: x.value_span.end,
        entry_start: x.entry_span.start,
        entry_end: x.entry_span.end,
    }
}
