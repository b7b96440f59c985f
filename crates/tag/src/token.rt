// The token before a place of a text. Tokens stand between white space, by code points. (01: Reading rules, Tag span; S9, W1.)
ghost use Rattle.std.specs.Prelude.{◌≡◌, ℕ, Bool};
ghost use Rattle.tag.specs.Tag.{is_opening, openings};
ghost use Rattle.tag.specs.Back.{Tells, back_over};

use utf8::utf8::Place;

// Moved back over the characters before the place that are of a kind: over white space to where the last token before it ends, over all
// else to where the token that ends at it starts; to the text's start where nothing else is left.
pub fn back_over<'a, F: Fn(u32) -> bool>(place: Place<'a>, kind: F) -> Place<'a>
    requires callable { F.IsAlwaysCallable kind }
    ensures same_text { result.text.bytes.now ≡ place.entry.text.bytes.now }
    ensures value { (test : ℕ → Bool) → Tells (F.post kind) test → result.at ≡ back_over test place.entry.text.bytes.now place.entry.at }
{
    let text = place.text;
    let mut at = place.at;
    while let Some(c) = (Place { text, at }).last_char() {
        if !kind(c.code) {
            break;
        }
        at -= c.len;
    }
    Place { text, at }
}

// Whether `b` is `[`, `{` or `,`.
fn is_opening(b: u8) -> bool
    ensures { result ≡ is_opening b }
{
    matches!(b, b'[' | b'{' | b',')
}

// How many `[`, `{` and `,` a token begins with.
pub fn opening_len(token: &[u8]) -> usize
    ensures { result ≡ openings token.now }
{
    token.iter().take_while(|&&b| is_opening(b)).count()
}
