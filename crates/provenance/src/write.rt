// Pieces in a lent buffer: four numbers each, from entry 0. (01: Events, records, pieces; E3, F2.)
ghost use Rattle.std.specs.Prelude.{◌≡◌, ◌+◌, ◌≤◌, length};
ghost use Rattle.text.specs.Admission.{text_limit};
ghost use Rattle.provenance.specs.Counted.{place_limit};
ghost use Rattle.provenance.specs.Layout;
ghost use Rattle.provenance.specs.Reading;
ghost use Rattle.provenance.specs.Writing.{put_piece, put_open, count_open, put_replacement, cleared_to, written_len};

// The numbers of a piece: its kind, start, end, content length.
pub const PIECE_WIDTH: usize = 4;

// The kinds of pieces by their numbers in the layout. In a walk they are the two steps: an enum would be a second `Step`.
const VERBATIM: u32 = 1;

const REPLACEMENT: u32 = 2;

// How many pieces a buffer of `size` numbers has room for.
pub fn room(size: usize) -> usize
    ensures { result ≡ Layout.room size }
{
    size / PIECE_WIDTH
}

// The bytes of the text from `start` to `end`, and how many bytes of the value they stand for.
#[derive(Clone, Copy, Debug, PartialEq, Eq)]
struct Piece {
    kind: u32,
    start: u32,
    end: u32,
    content: u32,
}

// Writes piece number `n`, if there is room for it.
#[tactic(auto, unfolding(crate::specs::Writing::put_piece))]
fn put_piece(pieces: &mut [u32], n: usize, piece: Piece)
    ensures { pieces.new ≡ put_piece pieces.old n (Reading.piece piece.kind piece.start piece.end piece.content) }
{
    if n < room(pieces.len()) {
        let at = PIECE_WIDTH * n;
        // One by one: copied from an array they would be read as one again, just after they were written as four.
        pieces[at] = piece.kind;
        pieces[at + 1] = piece.start;
        pieces[at + 2] = piece.end;
        pieces[at + 3] = piece.content;
    }
}

// How far the pieces of a walk are written: how many there are, where the source stands in its text, and from where its verbatim bytes are
// not yet written.
#[derive(Clone, Copy, Debug, PartialEq, Eq)]
pub struct Written {
    pub count: usize,
    pub base: usize,
    pub from: usize,
}

impl Written {
    // Writes the verbatim bytes up to `s`, if there are any, and answers how many pieces there are then.
    #[tactic(auto, unfolding(crate::specs::Writing::put_open))]
    pub fn put_open(self, pieces: &mut [u32], s: usize) -> usize
        requires { (self.base ≤ text_limit) × (s ≤ place_limit) × (self.count ≤ s + 1) }
        ensures value { result ≡ count_open self.count self.from s }
        ensures pieces_after { pieces.new ≡ put_open pieces.old self.count self.base self.from s }
    {
        if self.from < s {
            let piece = Piece {
                kind: VERBATIM,
                start: (self.base + self.from) as u32,
                end: (self.base + s) as u32,
                content: (s - self.from) as u32,
            };
            put_piece(pieces, self.count, piece);
            return self.count + 1;
        }
        self.count
    }

    // Writes the verbatim bytes up to `s`, if there are any, then a replacement of `a` source bytes from `s` on by `b` content bytes.
    #[tactic(auto, unfolding(crate::specs::Writing::put_replacement))]
    pub fn put_replacement(self, pieces: &mut [u32], s: usize, a: usize, b: usize) -> Written
        requires { (self.base ≤ text_limit) × (s ≤ place_limit) × (self.count ≤ s + 1) × (a ≤ place_limit) × (b ≤ place_limit) }
        ensures value { result ≡ record { count = count_open self.count self.from s + 1; base = self.base; from = s + a } }
        ensures pieces_after { pieces.new ≡ put_replacement pieces.old self.count self.base self.from s a b }
    {
        let next = self.put_open(pieces, s);
        let piece = Piece {
            kind: REPLACEMENT,
            start: (self.base + s) as u32,
            end: (self.base + s + a) as u32,
            content: b as u32,
        };
        put_piece(pieces, next, piece);
        Written {
            count: next + 1,
            base: self.base,
            from: s + a,
        }
    }
}

// How many numbers `n` pieces took of a buffer of `size`.
#[tactic(auto, unfolding(crate::specs::Writing::written_len))]
fn written_len(n: usize, size: usize) -> usize
    ensures { result ≡ written_len n size }
{
    PIECE_WIDTH * n.min(room(size))
}

// All numbers are set to zero.
pub fn clear(buffer: &mut [u32])
    ensures { buffer.new ≡ Layout.zeros (length buffer.old) }
{
    buffer.fill(0);
}

// Clears what `n` pieces took.
pub fn clear_pieces(pieces: &mut [u32], n: usize)
    ensures { pieces.new ≡ cleared_to (written_len n (length pieces.old)) pieces.old }
{
    let end = written_len(n, pieces.len());
    clear(&mut pieces[..end]);
}
