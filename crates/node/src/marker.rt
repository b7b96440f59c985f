// The place of an error at a marker. (01: `scan_error`; N4.)
ghost use Rattle.std.specs.Prelude.{◌≡◌};
ghost use Rattle.node.specs.Marker.{scan_error};

use records::record::Extent;
use text::admission::{TextError, admit_text};
use text::offset::START;

// The span of the character at the marker index `index`: its bytes, or none at the text's end.
#[tactic(auto, using(crate::proofs::Offsets::cursor_offset), unfolding(crate::specs::Marker::scan_error))]
pub fn scan_error(text: &[u8], index: u32) -> Result<Extent, TextError>
    ensures { result ≡ scan_error text.now index }
{
    let text = admit_text(text)?;
    let from = text.byte_offset_of_char(START, index as usize);
    let to = text.byte_offset_of_char(from, index as usize + 1);
    Ok(Extent {
        start: from.offset as u32,
        end: to.offset as u32,
    })
}
