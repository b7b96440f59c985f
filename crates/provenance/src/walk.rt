// The walk: the value against the source from the walk's first byte on. (01: Piece grammar; `walk_scalar_provenance`; S12, S13, F2, F3.)
ghost use Rattle.std.specs.Prelude.{◌≡◌, ◌≤◌, ◌<◌, length};
ghost use Rattle.style.specs.Style.{style_number};
ghost use Rattle.text.specs.Admission.{text_limit};
ghost use Rattle.provenance.specs.Grammar.{rules_of};
ghost use Rattle.provenance.specs.Reading.{reading_of};
ghost use Rattle.provenance.specs.Layout.{room, zeros, pieces_if, answer_of, buffer_of};

use crate::step::{Step, Walk, known_after};
use crate::write::{Written, clear_pieces, room};
use letters::letter::letters;

// A list of so many pieces; a list that there is no room for; no list. Each reader takes the three apart in one match: a Result of an
// Option would nest it.
#[derive(Clone, Copy, Debug, PartialEq, Eq)]
pub enum Walked {
    Listed(usize),
    NoRoom,
    NoList,
}

impl Walk<'_> {
    // Walks the value along the source, which stands at `base` of its text, and leaves the pieces in a buffer that is lent zero.
    //
    // Past the room the walk goes on and only counts: whether there is a reading is not known before its end. No run of white space that
    // starts before `known` holds a newline, so none is looked at twice. After an equal byte come mostly letters, which are passed over at
    // once. The loop goes by steps, of which each takes what it reads. That the buffer is zero is asked here and in the calls above: a
    // type for it would hold a `&mut`, and have to say in each contract that it keeps that one.
    pub fn walk_scalar_provenance(self, base: usize, pieces: &mut [u32]) -> Walked
        requires short { (length self.src.now ≤ text_limit) × (length self.value.now ≤ text_limit) × (base ≤ text_limit) }
        requires pieces_zero { pieces.old ≡ zeros (length pieces.old) }
        ensures value { result ≡ answer_of (room (length pieces.old)) (pieces_if base (reading_of (rules_of (style_number self.entry.style) self.entry.column) self.entry.src.now self.entry.value.now)) }
        ensures pieces_after { pieces.new ≡ buffer_of (length pieces.old) (pieces_if base (reading_of (rules_of (style_number self.entry.style) self.entry.column) self.entry.src.now self.entry.value.now)) }
    {
        let (src, value) = (self.src, self.value);
        let mut s = 0;
        let mut v = 0;
        let mut known = 0;
        let mut written = Written {
            count: 0,
            base,
            from: 0,
        };
        while v < value.len() {
            let run = self.break_run(s, v, known);
            known = known_after(known, s, run);
            let Some(step) = self.step_at(s, v, run) else {
                clear_pieces(pieces, written.count);
                return Walked::NoList;
            };
            match step {
                Step::Verbatim(k) => {
                    s += k;
                    v += k;
                    let more = letters(src, s, value, v);
                    s += more;
                    v += more;
                }
                Step::Replacement(a, b) => {
                    written = written.put_replacement(pieces, s, a, b);
                    s += a;
                    v += b;
                }
            }
        }
        let n = written.put_open(pieces, s);
        if room(pieces.len()) < n {
            clear_pieces(pieces, n);
            return Walked::NoRoom;
        }
        Walked::Listed(n)
    }
}
