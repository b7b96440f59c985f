// The call on a whole document. (01: the table; R0 to R9, RO, RZ, B1.)
ghost use Rattle.std.specs.Prelude.{◌≡◌, ◌≤◌, length, IfOk, IfErr, Ok};
ghost use Rattle.utf8.specs.Ascii.{Bytes};
ghost use Rattle.text.specs.Admission.{admission};
ghost use Rattle.provenance.specs.Layout.{zeros};
ghost use Rattle.event.specs.Read.{events_limit, read_event};
ghost use Rattle.records.specs.Layout.{pieces_limit};
ghost use Rattle.parser.specs.Machine.{on_read, next_place};
ghost use Rattle.parser.specs.Call.{Promised};
ghost use Rattle.parser.specs.Held.{Ready, Refuses, Follows, Fills, Settles};

use crate::answer::{Built, Refusal, Refused};
use crate::on_event::Builder;
use event::read::{EVENTS_LIMIT, read_event};
use provenance::write::clear;
use records::buffer::usable;
use text::admission::{Text, admit_text};

// A document: a text that is admitted, and event bytes within their limit.
#[derive(Clone, Copy)]
struct Document<'a> {
    text: Text<'a>,
    events: &'a [u8],
    ghost short: { length events.now ≤ events_limit },
    ghost bytes: { Bytes events.now },
}

// The event at `at` is done, and answered by the place after it.
fn step(
    builder: &mut Builder,
    document: Document<'_>,
    at: usize,
    records: &mut [u32],
    pieces: &mut [u32],
) -> Result<usize, Refusal>
    requires { Ready document.text.content.bytes.now builder.old records.old pieces.old }
    ensures stepped { Follows document.entry.text.content.bytes.now builder.old records.old pieces.old
        (λ room piece_room st. on_read document.entry.text.content.bytes.now document.entry.events.now room piece_room (read_event document.entry.events.now at) st) result builder.new records.new pieces.new }
    ensures next { IfOk result (λ n. n ≡ next_place (read_event document.entry.events.now at)) }
{
    let Document { text, events } = document;
    let (e, next) = read_event(events, at)?;
    builder.on_event(text, events, records, pieces, e)?;
    Ok(next)
}

// All events in order, into buffers that are zero. A loop: where the next event begins is read.
fn fill(document: Document<'_>, records: &mut [u32], pieces: &mut [u32]) -> Result<Built, Refused>
    requires { (records.old ≡ zeros (length records.old)) × (pieces.old ≡ zeros (length pieces.old)) × (length pieces.old ≤ pieces_limit) }
    ensures { Fills document.entry.text.content.bytes.now document.entry.events.now records.old pieces.old result records.new pieces.new }
{
    let mut builder = Builder::new();
    let mut at = 0;
    let mut number = 0;
    while at < document.events.len() {
        let refused = |refusal: Refusal| -> Refused
            ensures { result ≡ record { refusal = refusal; place = number } }
        {
            Refused {
                refusal,
                place: number,
            }
        };
        at = step(&mut builder, document, at, records, pieces).map_err(refused)?;
        number += 1;
    }
    if !builder.root_done() {
        return Err(Refused {
            refusal: Refusal::Unfinished,
            place: number,
        });
    }
    Ok(Built {
        nodes: builder.nodes,
        pieces: builder.used,
    })
}

// The same into as much of the pieces as is used; what was written before a refusal is cleared.
fn fill_or_clear(
    document: Document<'_>,
    records: &mut [u32],
    pieces: &mut [u32],
) -> Result<Built, Refused>
    requires { (records.old ≡ zeros (length records.old)) × (pieces.old ≡ zeros (length pieces.old)) }
    ensures { Settles document.entry.text.content.bytes.now document.entry.events.now records.old pieces.old result records.new pieces.new }
{
    let n = usable(pieces.len());
    let r = fill(document, records, &mut pieces[..n]);
    if r.is_err() {
        clear(records);
        clear(pieces);
    }
    r
}

// The document, if its text and event bytes are let in: rows 1 and 2.
fn admit<'a>(text: &'a [u8], events: &'a [u8]) -> Result<Document<'a>, Refusal>
    ensures admitted { IfOk result (λ d. (admission text.now ≡ Ok d.text.ascii) × (d.text.content.bytes.now ≡ text.now) × (d.events.now ≡ events.now)) }
    ensures refused { IfErr result (λ e. Refuses text.now events.now e) }
{
    if EVENTS_LIMIT < events.len() {
        return Err(Refusal::TooLong);
    }
    Ok(Document {
        text: admit_text(text)?,
        events,
    })
}

// The events of a document over its text: the records of its nodes, in the order in which they are complete, and the pieces of its
// scalars. What it answers and every number of both buffers afterwards is `building`; on a refusal they are all zero.
pub fn build(
    text: &[u8],
    events: &[u8],
    records: &mut [u32],
    pieces: &mut [u32],
) -> Result<Built, Refused>
    ensures { Promised text.now events.now records.old pieces.old result records.new pieces.new }
{
    clear(records);
    clear(pieces);
    match admit(text, events) {
        Ok(document) => fill_or_clear(document, records, pieces),
        Err(refusal) => Err(Refused { refusal, place: 0 }),
    }
}
