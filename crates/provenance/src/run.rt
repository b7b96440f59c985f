// Runs of white-space bytes in the source, and of blanks and newlines in the value. (01: Piece grammar, step 1; S11, W1.)
ghost use Rattle.std.specs.Prelude.{◌≡◌, ◌<◌, min, length};
ghost use Rattle.provenance.specs.Run.{blank_run, only_newlines};
ghost use Rattle.measure.specs.Plain.{is_fold};
ghost use Rattle.provenance.specs.Counted.{cut_len, counted_run};

use utf8::class::{BLANK, NEWLINE, is_white_space_byte};

// The white-space bytes that a source begins with: how many they are, how many newlines are among them, and how many go up to the
// last newline, it counted in. By bytes: a measure has a run of its own, by code points, which counts other things.
#[derive(Clone, Copy, Debug, PartialEq, Eq)]
pub struct Run {
    pub len: usize,
    pub newlines: usize,
    pub last: usize,
}

// An empty run, without a newline: all that a step asks of a run where it looks at none.
pub const NO_RUN: Run = Run {
    len: 0,
    newlines: 0,
    last: 0,
};

// The run that a source begins with.
pub fn white_run(tail: &[u8]) -> Run
    ensures { result ≡ counted_run tail.now }
{
    let mut run = NO_RUN;
    for &b in tail {
        if !is_white_space_byte(b) {
            break;
        }
        run.len += 1;
        if b == NEWLINE {
            run.newlines += 1;
            run.last = run.len;
        }
    }
    run
}

// How many bytes of a run a scalar takes: a block with a column above 0 ends it at most so many after its last newline.
#[tactic(auto, unfolding(crate::specs::Counted::cut_len))]
pub fn cut_len(run: Run, block: bool, column: usize) -> usize
    ensures { result ≡ cut_len block column run }
{
    if block && 0 < column {
        run.last.saturating_add(column).min(run.len)
    } else {
        run.len
    }
}

// The same of a byte as measure's `is_fold` of a code point. It is not asked: a cast would read the byte as if it were a code point.
#[tactic(auto, unfolding(measure::specs::Plain::is_fold))]
pub fn is_fold(b: u8) -> bool
    ensures { result ≡ is_fold b }
{
    b == BLANK || b == NEWLINE
}

// How many blanks and newlines a value begins with, at most `most`.
pub fn folds(tail: &[u8], most: usize) -> usize
    ensures { result ≡ min most (length (blank_run tail.now)) }
{
    tail.iter().take_while(|&&b| is_fold(b)).take(most).count()
}

// Whether a value is newlines and nothing else. An empty one is.
pub fn only_newlines(tail: &[u8]) -> bool
    ensures { result ≡ only_newlines tail.now }
{
    tail.iter().all(|&b| b == NEWLINE)
}
