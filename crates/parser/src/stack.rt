// The open collections. (01: row 6; N2.)
ghost use Rattle.std.specs.Prelude.{◌≡◌, ◌≤◌, ◌<◌, [], ◌∷◌, List, take, reverse, length, MatchOption};
ghost use Rattle.spans.specs.Collection.{with_child};
ghost use Rattle.parser.specs.Machine.{awaits_value};
ghost use Rattle.spans.specs.declared.open.Open.{Open};
ghost use Rattle.parser.specs.Opens.{Countable};
ghost use Rattle.parser.specs.Machine.{depth_limit};

use spans::open::{Collection, Open};
use std::marker::Model;

// How many collections may be open.
pub const DEPTH_LIMIT: usize = 64;

// Fills the places that are not used.
const UNUSED: Open = Open {
    collection: Collection::Sequence,
    start: 0,
    suffix: None,
    children: 0,
    first: None,
    before: 0,
};

// At most 64 open collections, the innermost last: fixed memory, and its count beside it, which clauses do not see. A vector of fixed
// capacity would have the same methods and be one more crate to stand on.
#[derive(Drop)]
pub struct Stack {
    opens: [Open; DEPTH_LIMIT],
    depth: usize,
}

// Clauses see the list of them, the innermost first.
impl Model for Stack {
    ghost Value = { List Open };

    ghost view = { λ s. reverse (take s.depth s.opens) };

    ghost invariant = { λ s. (s.depth ≤ length s.opens) × (length s.opens ≡ depth_limit) };
}

impl Stack {
    pub fn new() -> Self
        ensures { result ≡ [] }
    {
        Stack {
            opens: [UNUSED; DEPTH_LIMIT],
            depth: 0,
        }
    }

    pub fn depth(&self) -> usize
        ensures { result ≡ length self.now }
    {
        self.depth
    }

    // `o` is opened inside the others.
    pub fn push(&mut self, o: Open)
        requires { length self.old < depth_limit }
        ensures { self.new ≡ o ∷ self.old }
    {
        self.opens[self.depth] = o;
        self.depth += 1;
    }

    // The innermost one, taken off.
    pub fn pop(&mut self) -> Option<Open>
        ensures { MatchOption result ((self.old ≡ []) × (self.new ≡ [])) (λ o. self.old ≡ o ∷ self.new) }
    {
        if self.depth == 0 {
            return None;
        }
        self.depth -= 1;
        Some(self.opens[self.depth])
    }

    // Whether the next node is the value of the innermost mapping's last key.
    pub fn expecting_value(&self) -> bool
        ensures { result ≡ awaits_value self.now }
    {
        let innermost = self.opens[..self.depth].last();
        innermost.is_some_and(|o| o.collection == Collection::Mapping && o.children % 2 == 1)
    }

    // The innermost one, if there is one, has a child more, which starts at `start`.
    pub fn add_child(&mut self, start: u32)
        requires { Countable self.old }
        ensures { self.new ≡ with_child start self.old }
    {
        // By its index: `last_mut` of `opens[..depth]` was tried, and no fact was found that says what that part ends as.
        if let Some(k) = self.depth.checked_sub(1) {
            let o = &mut self.opens[k];
            o.children += 1;
            o.first = o.first.or(Some(start));
        }
    }
}
