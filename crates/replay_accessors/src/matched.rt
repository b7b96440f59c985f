// Answers matched with the numbers of a list, one after another: 0 for none; 1 for no and 2 for yes; one more than a record's number;
// otherwise 1 and the numbers.
ghost use Rattle.std.specs.Prelude.{◌≡◌, Some, None};
ghost use Rattle.replay_accessors.specs.Matched.{matched_of, match_number, matched_whole, match_all, flag_numbers, count_numbers, span_numbers, tag_numbers, piece_numbers, record_numbers, match_record, match_place, match_entry};

use node::entry::YamlHashEntry;
use records::record::{Extent, Node, PieceList, RECORD_WIDTH, TagInfo};
use replay::case::{NUMBER_BYTES, number_at};

// A list that is matched from its start on.
#[derive(Clone, Copy)]
pub struct Matcher<'a> {
    // None once a number differs; then what is left of the list, or none of it where its last number was cut off.
    rest: Option<Option<&'a [u8]>>,
}

// The numbers that the lists have for an answer.
const NONE: u32 = 0;

const SOME: u32 = 1;

const NO: u32 = 1;

const YES: u32 = 2;

impl<'a> Matcher<'a> {
    pub fn new(list: &'a [u8]) -> Self
        ensures { matched_of result ≡ Some (Some list.now) }
    {
        Matcher {
            rest: Some(Some(list)),
        }
    }

    // `x` is the next number of the list, whose bytes past the end are 0.
    #[tactic(auto, unfolding(crate::specs::Matched::match_number))]
    pub fn number(&mut self, x: u32)
        ensures { matched_of self.new ≡ match_number (matched_of self.old) x }
    {
        self.rest = match self.rest {
            Some(Some(rest)) if !rest.is_empty() && number_at(rest, 0) == x => {
                Some(rest.get(NUMBER_BYTES..))
            }
            _ => None,
        };
    }

    // Whatever stands in the list, it is another answer.
    pub fn differ(&mut self)
        ensures { matched_of self.new ≡ None }
    {
        self.rest = None;
    }

    // Whether the list was matched to its end.
    pub fn is_whole(&self) -> bool
        ensures { result ≡ matched_whole (matched_of self.now) }
    {
        matches!(self.rest, Some(Some([])))
    }

    // Numbers, one after another.
    #[tactic(auto, using(crate::proofs::Matching::one_more))]
    pub fn numbers(&mut self, xs: &[u32])
        ensures { matched_of self.new ≡ match_all (matched_of self.old) xs.now }
    {
        for &x in xs {
            self.number(x);
        }
    }

    pub fn flag(&mut self, answer: Option<bool>)
        ensures { matched_of self.new ≡ match_all (matched_of self.old) (flag_numbers answer) }
    {
        self.number(match answer {
            Some(true) => YES,
            Some(false) => NO,
            None => NONE,
        });
    }

    // This and the answers below of one shape are written out: by one function over `Option<[u32; N]>` each needs an answer for its
    // closure.
    pub fn count(&mut self, answer: Option<u32>)
        ensures { matched_of self.new ≡ match_all (matched_of self.old) (count_numbers answer) }
    {
        match answer {
            Some(k) => self.numbers(&[SOME, k]),
            None => self.number(NONE),
        }
    }

    // A record's number, for which a list of 32-bit numbers may have no room.
    fn record(&mut self, n: usize)
        ensures { matched_of self.new ≡ match_record (matched_of self.old) n }
    {
        if n < 0xffff_ffff {
            self.number(n as u32 + 1);
        } else {
            self.differ();
        }
    }

    pub fn place(&mut self, answer: Option<usize>)
        ensures { matched_of self.new ≡ match_place (matched_of self.old) answer }
    {
        match answer {
            Some(n) => self.record(n),
            None => self.number(NONE),
        }
    }

    pub fn span(&mut self, answer: Option<Extent>)
        ensures { matched_of self.new ≡ match_all (matched_of self.old) (span_numbers answer) }
    {
        match answer {
            Some(x) => self.numbers(&[SOME, x.start, x.end]),
            None => self.number(NONE),
        }
    }

    pub fn tagged(&mut self, answer: Option<TagInfo>)
        ensures { matched_of self.new ≡ match_all (matched_of self.old) (tag_numbers answer) }
    {
        match answer {
            Some(x) => self.numbers(&[SOME, x.start, x.end, x.suffix, x.len]),
            None => self.number(NONE),
        }
    }

    pub fn pieces(&mut self, answer: Option<PieceList>)
        ensures { matched_of self.new ≡ match_all (matched_of self.old) (piece_numbers answer) }
    {
        match answer {
            Some(x) => self.numbers(&[SOME, x.first, x.count]),
            None => self.number(NONE),
        }
    }

    pub fn entry(&mut self, answer: Option<YamlHashEntry>)
        ensures { matched_of self.new ≡ match_entry (matched_of self.old) answer }
    {
        match answer {
            Some(x) => {
                self.record(x.key);
                self.record(x.value);
                self.numbers(&[x.key_span.start, x.key_span.end]);
                self.numbers(&[x.value_span.start, x.value_span.end]);
                self.numbers(&[x.entry_span.start, x.entry_span.end]);
            }
            None => self.number(NONE),
        }
    }

    pub fn lookup(&mut self, answer: Option<Node>)
        ensures { matched_of self.new ≡ match_all (matched_of self.old) (record_numbers answer) }
    {
        match answer {
            Some(x) => {
                let numbers: [u32; RECORD_WIDTH] = x.into();
                self.number(SOME);
                self.numbers(&numbers);
            }
            None => self.number(NONE),
        }
    }
}
