// What each event does to the open collections and the buffers. (01: `on_event`, `push_complete`; rows 3 to 8. 02: (c).)
ghost use Rattle.std.specs.Prelude.{◌≡◌, ◌/◌, [], leb, length};
ghost use Rattle.records.specs.Record.{record_width};
ghost use Rattle.records.specs.Adopt.{Chain};
ghost use Rattle.parser.specs.Machine.{on_start, on_end, on_alias, on_scalar, on_event};
ghost use Rattle.parser.specs.Held.{gate, is_root_done, Read, Ready, ReadyBut, ReadyToOpen, Pushable, Completes, Counted, Keeps, Follows, FollowsBut, Opens};
ghost use Rattle.parser.specs.declared.answer.Refusal.TheVariants.{AfterRoot, NoRecordRoom};
ghost use Rattle.spans.specs.Fits.{TagFits, EventFits};

use crate::answer::Refusal;
use crate::stack::{DEPTH_LIMIT, Stack};
use event::read::Event;
use event::tag::YamlTag;
use provenance::walk::Walked;
use provenance::write::PIECE_WIDTH;
use records::parent::adopt;
use records::record::{ABSENT, Extent, NO_LIST, NO_TAG, Node, RECORD_WIDTH, put_record};
use schema::record::{Kind, Payload};
use spans::collection::{closes_open, collection_node};
use spans::open::{Collection, Open};
use spans::scalar::{ScalarEntry, ScalarEvent, ScalarMark, event_scalar, suffix_of};
use text::admission::{AdmittedPlace, Text};
use text::offset::{Cursor, START};

// How far a call has got. Its records and pieces are lent to each step: a struct that holds a `&mut` has to say in each contract that it
// keeps that one.
#[derive(Drop)]
pub struct Builder {
    // Nodes completed.
    pub nodes: usize,
    // Pieces kept.
    pub used: usize,
    // Where the last marker stands.
    pub cursor: Cursor,
    pub stack: Stack,
}

impl Builder {
    pub fn new() -> Self
        ensures { result ≡ record { nodes = 0; used = 0; cursor = record { chars = 0; offset = 0 }; stack = [] } }
    {
        Builder {
            nodes: 0,
            used: 0,
            cursor: START,
            stack: Stack::new(),
        }
    }

    // Whether the root is complete.
    pub fn root_done(&self) -> bool
        ensures { result ≡ is_root_done self.now }
    {
        self.stack.depth() == 0 && 0 < self.nodes
    }

    // No node comes after the root. (R5)
    fn before_root(&self) -> Result<(), Refusal>
        ensures { result ≡ gate (is_root_done self.now) AfterRoot }
    {
        if self.root_done() {
            return Err(Refusal::AfterRoot);
        }
        Ok(())
    }

    // There is room for a record more. (R7)
    fn within_room(&self, records: &[u32]) -> Result<(), Refusal>
        ensures { result ≡ gate (leb (length records.now / record_width) self.now.nodes) NoRecordRoom }
    {
        if records.len() / RECORD_WIDTH <= self.nodes {
            return Err(Refusal::NoRecordRoom);
        }
        Ok(())
    }

    // The node `x` is complete: its children get their parent, its record is written, and the innermost open collection has a child more.
    fn push_complete(&mut self, records: &mut [u32], x: Node, children: u32)
        requires pushable { Pushable self.old records.old }
        requires chain { Chain records.old children self.old.nodes }
        ensures { Completes self.old x children records.old self.new records.new }
    {
        adopt(records, self.nodes, children);
        put_record(records, self.nodes, x);
        self.stack.add_child(x.extent.start);
        self.nodes += 1;
    }

    // A collection starts.
    fn on_start(
        &mut self,
        text: Text<'_>,
        collection: Collection,
        index: u32,
        tag: Option<YamlTag>,
    ) -> Result<(), Refusal>
        requires ready { ReadyToOpen text.content.bytes.now self.old }
        requires tag_fits { TagFits tag }
        ensures { Opens text.entry.content.bytes.now self.old (on_start text.entry.content.bytes.now collection index tag) result self.new }
    {
        self.before_root()?;
        if DEPTH_LIMIT <= self.stack.depth() {
            return Err(Refusal::TooDeep);
        }
        self.cursor = text.byte_offset_of_char(self.cursor, index as usize);
        self.stack.push(Open {
            collection,
            start: self.cursor.offset as u32,
            suffix: suffix_of(tag),
            children: 0,
            first: None,
            before: self.nodes as u32,
        });
        Ok(())
    }

    // A collection ends.
    fn on_end(
        &mut self,
        text: Text<'_>,
        records: &mut [u32],
        collection: Collection,
        index: u32,
    ) -> Result<(), Refusal>
        requires { ReadyBut text.content.bytes.now self.old records.old }
        ensures { FollowsBut text.entry.content.bytes.now self.old records.old
            (λ room st. on_end text.entry.content.bytes.now room collection index st.opens st) result self.new records.new }
    {
        let Some(open) = self.stack.pop() else {
            return Err(Refusal::Unbalanced);
        };
        if !closes_open(collection, open) {
            return Err(Refusal::Unbalanced);
        }
        self.within_room(records)?;
        self.cursor = text.byte_offset_of_char(self.cursor, index as usize);
        let x = collection_node(text.content, open, self.cursor.offset, self.nodes);
        self.push_complete(records, x, open.children);
        Ok(())
    }

    // An alias: a null of length 0 with no list.
    fn on_alias(&mut self, text: Text<'_>, records: &mut [u32], index: u32) -> Result<(), Refusal>
        requires { ReadyBut text.content.bytes.now self.old records.old }
        ensures { FollowsBut text.entry.content.bytes.now self.old records.old
            (λ room st. on_alias text.entry.content.bytes.now room index st) result self.new records.new }
    {
        self.before_root()?;
        self.within_room(records)?;
        self.cursor = text.byte_offset_of_char(self.cursor, index as usize);
        let at = self.cursor.offset as u32;
        let x = Node {
            kind: Kind::Null.into(),
            extent: Extent { start: at, end: at },
            tag: NO_TAG,
            subtree: 1,
            list: NO_LIST,
            payload: Payload::default(),
            parent: ABSENT,
            measured: 1,
        };
        self.push_complete(records, x, 0);
        Ok(())
    }

    // The scalar `x`, whose pieces its walk has left in the free part of their buffer, is complete, or has no room.
    fn keep_scalar(&mut self, records: &mut [u32], x: ScalarEntry) -> Result<(), Refusal>
        requires pushable { Pushable self.old records.old }
        requires counted { Counted self.old.used x.walked }
        ensures { Keeps self.old x records.old result self.new records.new }
    {
        match x.walked {
            Walked::NoRoom => return Err(Refusal::NoPieceRoom),
            Walked::NoList => self.push_complete(records, x.node, 0),
            Walked::Listed(n) => {
                let node = x.node.with_list(self.used as u32, n as u32);
                self.used += n;
                self.push_complete(records, node, 0);
            }
        }
        Ok(())
    }

    // A scalar.
    fn on_scalar(
        &mut self,
        text: Text<'_>,
        events: &[u8],
        records: &mut [u32],
        pieces: &mut [u32],
        e: ScalarEvent,
    ) -> Result<(), Refusal>
        requires ready { Ready text.content.bytes.now self.old records.old pieces.old }
        requires event_fits { EventFits events.now e }
        ensures { Follows text.entry.content.bytes.now self.old records.old pieces.old
            (λ room piece_room st. on_scalar text.entry.content.bytes.now events.now room piece_room e st) result self.new records.new pieces.new }
    {
        self.before_root()?;
        self.within_room(records)?;
        self.cursor = text.byte_offset_of_char(self.cursor, e.mark.index as usize);
        let awaited = self.stack.expecting_value();
        let free = &mut pieces[PIECE_WIDTH * self.used..];
        let at = AdmittedPlace {
            text: text.content,
            at: self.cursor.offset,
        };
        let x = event_scalar(at, events, awaited, e, free);
        self.keep_scalar(records, x)
    }

    // One event, or the row that refuses it.
    pub fn on_event(
        &mut self,
        text: Text<'_>,
        events: &[u8],
        records: &mut [u32],
        pieces: &mut [u32],
        e: Event,
    ) -> Result<(), Refusal>
        requires ready { Ready text.content.bytes.now self.old records.old pieces.old }
        requires read { Read events.now e }
        ensures { Follows text.entry.content.bytes.now self.old records.old pieces.old
            (λ room piece_room st. on_event text.entry.content.bytes.now events.now room piece_room e st) result self.new records.new pieces.new }
    {
        match e {
            Event::SequenceStart { index, tag } => {
                self.on_start(text, Collection::Sequence, index, tag)
            }
            Event::SequenceEnd { index } => self.on_end(text, records, Collection::Sequence, index),
            Event::MappingStart { index, tag } => {
                self.on_start(text, Collection::Mapping, index, tag)
            }
            Event::MappingEnd { index } => self.on_end(text, records, Collection::Mapping, index),
            Event::Scalar {
                index,
                column,
                style,
                empty_span,
                tag,
                value,
            } => {
                let mark = ScalarMark {
                    index,
                    column,
                    style: style.into(),
                    empty: empty_span,
                };
                let scalar = ScalarEvent { mark, tag, value };
                self.on_scalar(text, events, records, pieces, scalar)
            }
            Event::Alias { index } => self.on_alias(text, records, index),
        }
    }
}
