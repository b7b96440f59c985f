// The steps of the piece grammar. (01: Piece grammar; S11.)
ghost use Rattle.std.specs.Prelude.{cond, ◌≡◌, ◌≤◌, ◌<◌, [], ltb, length, drop};
ghost use Rattle.style.specs.Style.{style_number, is_block};
ghost use Rattle.text.specs.Admission.{text_limit};
ghost use Rattle.provenance.specs.Run.{white_run};
ghost use Rattle.provenance.specs.Counted.{place_limit, no_run, counted_run};
ghost use Rattle.provenance.specs.Grammar.{rules_of, is_break_byte, opens_break, break_pair, end_step, step_at};
ghost use Rattle.provenance.specs.Looked.{break_run, Tells, known_after};

use crate::escape::escape_of;
use crate::run::{NO_RUN, Run, cut_len, folds, is_fold, only_newlines, white_run};
use style::Style;
use utf8::class::{CARRIAGE_RETURN, NEWLINE, TAB, is_white_space_byte};
use utf8::utf8::byte_at;

// What stands at a source place and a value place.
#[derive(Clone, Copy, Debug, PartialEq, Eq)]
pub enum Step {
    // so many bytes, equal in both
    Verbatim(usize),
    // so many source bytes for so many content bytes
    Replacement(usize, usize),
}

// What a walk goes through side by side, by the rules of a style and a column. The places `s` and `v` and the run at `s` are no part of
// it: they change at each step, the walk does not.
#[derive(Clone, Copy)]
pub struct Walk<'a> {
    pub src: &'a [u8],
    pub value: &'a [u8],
    pub style: Style,
    pub column: usize,
}

// Whether a break may begin at the value's byte `c`: a blank, a newline or a tab.
fn is_break_byte(c: u8) -> bool
    ensures { result ≡ is_break_byte c }
{
    is_fold(c) || c == TAB
}

// Whether a break may begin with the source's byte `b` and the value's byte `c`.
#[tactic(auto, unfolding(crate::specs::Grammar::opens_break))]
fn opens_break(block: bool, b: u8, c: u8) -> bool
    ensures { result ≡ opens_break block b c }
{
    is_break_byte(c)
        && if block {
            b == NEWLINE || b == CARRIAGE_RETURN
        } else {
            is_white_space_byte(b)
        }
}

// How far it is known that no run holds a newline, after the run at `s` was looked at.
#[tactic(auto, unfolding(crate::specs::Looked::known_after))]
pub fn known_after(known: usize, s: usize, run: Run) -> usize
    requires { (s ≤ place_limit) × (run.len ≤ text_limit) }
    ensures { result ≡ known_after known s run }
{
    if 0 < run.newlines || run.len == 0 {
        known
    } else {
        s + run.len
    }
}

// Step 4: no source is left.
#[tactic(auto, unfolding(crate::specs::Grammar::end_step))]
fn end_step(tail: &[u8]) -> Option<Step>
    ensures { result ≡ end_step [] tail.now }
{
    only_newlines(tail).then_some(Step::Replacement(0, tail.len()))
}

impl Walk<'_> {
    // The run that step 1 looks at. Before `known` no run holds a newline, and none is looked at.
    #[tactic(auto, unfolding(crate::specs::Looked::break_run))]
    pub fn break_run(self, s: usize, v: usize, known: usize) -> Run
        ensures { result ≡ cond (ltb s known) no_run (break_run (is_block (style_number self.entry.style)) (drop s self.entry.src.now) (drop v self.entry.value.now)) }
    {
        if known <= s
            && opens_break(
                self.style.is_block(),
                byte_at(self.src, s),
                byte_at(self.value, v),
            )
        {
            white_run(&self.src[s..])
        } else {
            NO_RUN
        }
    }

    // Step 1 over a run with a newline in it.
    fn break_step(self, s: usize, v: usize, run: Run) -> Step
        requires bounds { (s ≤ length self.src.now) × (v ≤ length self.value.now) }
        requires run_value { run ≡ counted_run (drop s self.src.now) }
        ensures { result ≡ break_pair (is_block (style_number self.entry.style)) self.entry.column (white_run (drop s self.entry.src.now)) (drop v self.entry.value.now) }
    {
        let a = cut_len(run, self.style.is_block(), self.column);
        let b = folds(&self.value[v..], run.newlines);
        if self.src[s..s + a] == self.value[v..v + b] {
            Step::Verbatim(a)
        } else {
            Step::Replacement(a, b)
        }
    }

    // The first step that fits. `run` is what step 1 looks at, or any run without a newline where that has none.
    pub fn step_at(self, s: usize, v: usize, run: Run) -> Option<Step>
        requires v_in_bounds { v < length self.value.now }
        requires tells { Tells run (is_block (style_number self.style)) (drop s self.src.now) (drop v self.value.now) }
        ensures { result ≡ step_at (rules_of (style_number self.entry.style) self.entry.column) self.entry.src.now self.entry.value.now s v }
    {
        if 0 < run.newlines {
            return Some(self.break_step(s, v, run));
        }
        if self.src.len() <= s {
            return end_step(&self.value[v..]);
        }
        if let Some(e) = escape_of(&self.src[s..], self.style) {
            return Some(Step::Replacement(e.source, e.content));
        }
        (self.src[s] == self.value[v]).then_some(Step::Verbatim(1))
    }
}
