// The outcome of a replay, counted and printed.
ghost use Rattle.std.specs.Prelude.{◌≡◌, Bool, Option, MatchOption};
ghost use Rattle.replay.specs.Case.{returned_of, rooms_of, TooLargeFor, FitsIn};
ghost use Rattle.replay.specs.Tally.{judged_of, verdict_of, counted_of, closed_of, after_of};

use crate::case::{Case, case_of, in_piece_room, in_rooms};
use crate::stream::CaseError;
use std::fmt;

// What one case came to.
#[derive(Clone, Copy, Debug, PartialEq, Eq)]
pub enum Verdict {
    Same,
    // The original panicked, so there is nothing to match.
    Panicked,
    // The program has no room for it.
    TooLarge,
    Different,
}

#[derive(Clone, Copy, Debug, PartialEq, Eq)]
pub struct Tally {
    pub same: u64,
    pub panicked: u64,
    pub different: u64,
    // Cases that the program has no room for.
    pub too_large: u64,
    // How many cases may follow. A loop has to end, and nothing says that a list does, so it counts down from a number that no run uses up.
    pub left: u64,
    // The list could not be read to its end.
    pub broken: bool,
}

// A case whose answer is the original's, or another.
pub fn judged(same: bool) -> Verdict
    ensures { result ≡ judged_of same }
{
    if same {
        Verdict::Same
    } else {
        Verdict::Different
    }
}

// The same of a case that the original may not have answered and the program may have no room for, where `same` is none.
pub fn verdict_of(case: Case<'_>, same: Option<bool>) -> Verdict
    ensures { result ≡ verdict_of case.entry.returned same }
{
    if case.returned.is_none() {
        return Verdict::Panicked;
    }
    same.map_or(Verdict::TooLarge, judged)
}

// The verdict on a case that is answered over its two rooms, of records and of pieces: what the answer says, unless the original has none or
// there is no room for so many. Nothing is said of the answer, which is the caller's.
pub fn verdict_in_rooms<F: FnOnce(Case<'_>, &mut [u32], &mut [u32]) -> bool>(
    bytes: &[u8],
    answer: F,
) -> Verdict
    requires { F.IsAlwaysCallable answer }
    ensures { (same : Option Bool) × (result ≡ verdict_of (returned_of bytes.now) same) × MatchOption same (TooLargeFor (rooms_of bytes.now)) (λ r. FitsIn (rooms_of bytes.now)) }
{
    let case = case_of(bytes);
    let same = in_rooms(case.rooms, |records, pieces| answer(case, records, pieces));
    verdict_of(case, same)
}

// The same of an answer over the room of the pieces alone.
pub fn verdict_in_piece_room<F: FnOnce(Case<'_>, &mut [u32]) -> bool>(
    bytes: &[u8],
    answer: F,
) -> Verdict
    requires { F.IsAlwaysCallable answer }
    ensures { (same : Option Bool) × (result ≡ verdict_of (returned_of bytes.now) same) × MatchOption same (TooLargeFor (rooms_of bytes.now)) (λ r. FitsIn (rooms_of bytes.now)) }
{
    let case = case_of(bytes);
    let same = in_piece_room(case.rooms, |pieces| answer(case, pieces));
    verdict_of(case, same)
}

pub const START: Tally = Tally {
    same: 0,
    panicked: 0,
    different: 0,
    too_large: 0,
    left: u64::MAX,
    broken: false,
};

impl Tally {
    // One more case. A count stays at its largest value, which no run reaches.
    fn count(&mut self, verdict: Verdict)
        ensures { self.new ≡ counted_of self.old verdict }
    {
        match verdict {
            Verdict::Same => self.same = self.same.saturating_add(1),
            Verdict::Panicked => self.panicked = self.panicked.saturating_add(1),
            Verdict::TooLarge => self.too_large = self.too_large.saturating_add(1),
            Verdict::Different => self.different = self.different.saturating_add(1),
        }
    }

    // No more cases.
    fn close(&mut self, broken: bool)
        ensures { self.new ≡ closed_of self.old broken }
    {
        self.left = 0;
        self.broken = broken;
    }

    // What was read of the list: a case that is judged so, or its end. One turn fewer is left (`fewer_left`).
    #[tactic(auto, unfolding(crate::specs::Tally::after_of))]
    pub fn after(&mut self, read: Result<Option<Verdict>, CaseError>)
        ensures { self.new ≡ after_of self.old read }
    {
        self.left = self.left.saturating_sub(1);
        match read {
            Ok(Some(verdict)) => self.count(verdict),
            Ok(None) => self.close(false),
            Err(CaseError::TooLarge) => self.count(Verdict::TooLarge),
            Err(CaseError::Broken) => self.close(true),
        }
    }
}

// A line for each count, and one more where the list was not read to its end.
impl fmt::Display for Tally {
    fn fmt<W: fmt::Write>(&self, f: &mut fmt::Formatter<W>) -> fmt::Result {
        writeln!(f, "{} the same", self.same)?;
        writeln!(f, "{} not answered by the original", self.panicked)?;
        writeln!(f, "{} different", self.different)?;
        if self.too_large > 0 {
            writeln!(f, "{} too large for this program", self.too_large)?;
        }
        if self.broken {
            writeln!(f, "the list is broken")?;
        }
        Ok(())
    }
}
