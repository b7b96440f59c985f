// The parts of an answered case.
ghost use Rattle.std.specs.Prelude.{◌≡◌, ◌+◌, ◌*◌, ◌≤◌, ◌<◌, ℕ, List, length, drop, MatchOption, ◌⊎◌};
ghost use Rattle.replay.specs.Case.{TooLargeFor, FitsIn, number, part_of, text_of, events_of, rooms_of, returned_of, records_of, pieces_of, same_numbers};

// The rooms of the two buffers, in numbers.
#[derive(Clone, Copy, Debug, PartialEq, Eq)]
pub struct Rooms {
    pub records: usize,
    pub pieces: usize,
}

// What is returned: 0, nodes and pieces; or a row's number, its place and 0. Numbers, as the lists have them.
#[derive(Clone, Copy, Debug, PartialEq, Eq)]
pub struct Returned {
    pub code: u32,
    pub first: usize,
    pub second: usize,
}

#[derive(Clone, Copy)]
pub struct Case<'a> {
    pub text: &'a [u8],
    pub events: &'a [u8],
    pub rooms: Rooms,
    // None where the original panics on an input that it is to admit.
    pub returned: Option<Returned>,
    // The records' and the pieces' bytes, four for each number.
    pub records: &'a [u8],
    pub pieces: &'a [u8],
}

// The bytes of a number.
pub const NUMBER_BYTES: usize = 4;

// Stands in the place of a code where the original panics: the lists' format gives it.
pub const PANICKED: u32 = 255;

// The number in the four bytes from `at` on, high byte first; bytes past the end are 0.
#[tactic(auto, unfolding(crate::specs::Case::number))]
pub fn number_at(s: &[u8], at: usize) -> u32
    ensures { result ≡ number s.now at }
{
    match s.get(at..).unwrap_or(&[]) {
        [a, b, c, d, ..] => u32::from_be_bytes([*a, *b, *c, *d]),
        rest => cut_off_number(rest),
    }
}

// The number that some bytes begin, fewer than it has.
#[tactic(auto, unfolding(crate::specs::Case::number))]
fn cut_off_number(rest: &[u8]) -> u32
    ensures { result ≡ number rest.now 0 }
{
    let byte = |i: usize| rest.get(i).copied().unwrap_or(0);
    u32::from_be_bytes([byte(0), byte(1), byte(2), byte(3)])
}

// So many bytes from `at` on; none where they are not within.
#[tactic(auto, unfolding(crate::specs::Case::part_of))]
pub fn bytes_at(s: &[u8], at: usize, len: usize) -> &[u8]
    ensures { result.now ≡ part_of s.now at len }
{
    s.get(at..).and_then(|rest| rest.get(..len)).unwrap_or(&[])
}

// What is left of a case that is read from its start on.
#[derive(Drop)]
struct Reader<'a> {
    rest: &'a [u8],
}

impl<'a> Reader<'a> {
    // So many bytes are read.
    fn skip(&mut self, len: usize)
        ensures { self.new.rest.now ≡ drop len self.old.rest.now }
    {
        self.rest = self.rest.get(len..).unwrap_or(&[]);
    }

    // The next number.
    fn number(&mut self) -> u32
        ensures value { result ≡ number self.old.rest.now 0 }
        ensures rest { self.new.rest.now ≡ drop 4 self.old.rest.now }
    {
        let n = number_at(self.rest, 0);
        self.skip(NUMBER_BYTES);
        n
    }

    // The next part: how many units it has, and then these, each `width` bytes.
    fn part(&mut self, width: usize) -> &'a [u8]
        requires { width ≤ 4 }
        ensures value { result.now ≡ part_of self.old.rest.now 4 (width * number self.old.rest.now 0) }
        ensures rest { self.new.rest.now ≡ drop (4 + width * number self.old.rest.now 0) self.old.rest.now }
    {
        let len = width * number_at(self.rest, 0) as usize;
        let bytes = bytes_at(self.rest, NUMBER_BYTES, len);
        self.skip(NUMBER_BYTES + len);
        bytes
    }
}

// The parts of an answered case. One that is cut off has empty parts, and numbers that are 0.
pub fn case_of(s: &[u8]) -> Case<'_>
    ensures text { result.text.now ≡ text_of s.now }
    ensures events { result.events.now ≡ events_of s.now }
    ensures rooms { result.rooms ≡ rooms_of s.now }
    ensures returned { result.returned ≡ returned_of s.now }
    ensures records { result.records.now ≡ records_of s.now }
    ensures pieces { result.pieces.now ≡ pieces_of s.now }
{
    let mut case = Reader { rest: s };
    let text = case.part(1);
    let events = case.part(1);
    let rooms = Rooms {
        records: case.number() as usize,
        pieces: case.number() as usize,
    };
    let returned = Returned {
        code: case.number(),
        first: case.number() as usize,
        second: case.number() as usize,
    };
    Case {
        text,
        events,
        rooms,
        returned: (returned.code != PANICKED).then_some(returned),
        records: case.part(NUMBER_BYTES),
        pieces: case.part(NUMBER_BYTES),
    }
}

// Whether the numbers of a buffer are those of a list, four bytes each, and zero past them.
#[tactic(auto, using(crate::proofs::Numbers::numbers_from), unfolding(crate::specs::Case::same_numbers))]
pub fn same_numbers(buffer: &[u32], list: &[u8]) -> bool
    ensures { result ≡ same_numbers buffer.now list.now }
{
    let mut list = Reader { rest: list };
    for &n in buffer {
        if n != list.number() {
            return false;
        }
    }
    list.rest.is_empty()
}

// How many numbers a program has room for, of records and of pieces.
pub const ROOM: usize = 4096;

// A buffer to lend, none of whose numbers is zero.
pub fn numbers() -> [u32; ROOM]
    ensures { 4096 ≡ length result }
{
    [7; ROOM]
}

// What is answered over a buffer of so many numbers; none where there is no room for so many.
pub fn in_room<F: FnOnce(&mut [u32]) -> bool>(size: usize, answer: F) -> Option<bool>
    requires { F.IsAlwaysCallable answer }
    ensures { MatchOption result (4096 < size) (λ r. (lent : _) × (left : _) × (size ≤ 4096) × (length lent.now ≡ size) × F.post answer lent r left) }
{
    if ROOM < size {
        return None;
    }
    let mut numbers = numbers();
    Some(answer(&mut numbers[..size]))
}

// The same over two buffers, of records and of pieces.
pub fn in_rooms<F: FnOnce(&mut [u32], &mut [u32]) -> bool>(rooms: Rooms, answer: F) -> Option<bool>
    requires { F.IsAlwaysCallable answer }
    ensures { MatchOption result (TooLargeFor rooms)
        (λ r. (records : _) × (pieces : _) × (left : _) × (pieces_left : _) × FitsIn rooms × (length records.now ≡ rooms.records) × (length pieces.now ≡ rooms.pieces) × F.post answer records pieces r left pieces_left) }
{
    if ROOM < rooms.records || ROOM < rooms.pieces {
        return None;
    }
    let mut records = numbers();
    let mut pieces = numbers();
    Some(answer(&mut records[..rooms.records], &mut pieces[..rooms.pieces]))
}

// The same over the buffer of the pieces alone, where there is room for the records too.
pub fn in_piece_room<F: FnOnce(&mut [u32]) -> bool>(rooms: Rooms, answer: F) -> Option<bool>
    requires { F.IsAlwaysCallable answer }
    ensures { MatchOption result (TooLargeFor rooms)
        (λ r. (pieces : _) × (left : _) × FitsIn rooms × (length pieces.now ≡ rooms.pieces) × F.post answer pieces r left) }
{
    if ROOM < rooms.records {
        return None;
    }
    in_room(rooms.pieces, answer)
}
