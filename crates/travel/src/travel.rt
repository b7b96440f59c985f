// How far the cursor travels over a sequence of markers. No cursor goes from marker to marker for it. (02: (k).)
ghost use Rattle.std.specs.Prelude.{◌≡◌, ◌≤◌, length, map};
ghost use Rattle.utf8.specs.Characters.{codes};
ghost use Rattle.text.specs.Admission.{text_limit};
ghost use Rattle.travel.specs.Travel.{markers_limit, clamped, distances, cursor_travel};

use text::admission::{Text, TextError, admit_text};
use text::offset::START;

// The most markers of a call.
pub const MARKERS_LIMIT: usize = 1_048_576;

// How many characters the text has: so many as the cursor has passed at the text's end.
fn char_count(text: Text<'_>) -> usize
    ensures { result ≡ length (codes text.entry.content.bytes.now) }
{
    let end = text.content.bytes.len();
    text.byte_offset_of_char(START, end).chars
}

// The distances between successive indices, from 0 on, in a text of so many characters.
fn distances(chars: usize, markers: &[u32]) -> u64
    requires chars_bound { chars ≤ text_limit }
    requires markers_bound { length markers.now ≤ markers_limit }
    ensures { result ≡ distances 0 (map (clamped chars) markers.now) }
{
    let mut sum = 0;
    let mut from: usize = 0;
    for &marker in markers {
        let index = chars.min(marker as usize);
        sum += from.abs_diff(index) as u64;
        from = index;
    }
    sum
}

// How many characters the cursor passes over from marker to marker.
#[tactic(auto, unfolding(crate::specs::Travel::cursor_travel))]
pub fn cursor_travel(text: &[u8], markers: &[u32]) -> Result<u64, TextError>
    ensures { result ≡ cursor_travel text.now markers.now }
{
    if MARKERS_LIMIT < markers.len() {
        return Err(TextError::TooLong);
    }
    let text = admit_text(text)?;
    if text.ascii {
        return Ok(0);
    }
    Ok(distances(char_count(text), markers))
}
