// Bytes that are looked at a chunk at a time. No place of a chunk ends the loop over it: each is tested, and the first that fails is kept,
// which a processor does for all of them at once.
ghost use Rattle.std.specs.Prelude.{ℕ, ◌*◌, ◌^◌, ◌<◌, true};
ghost use Rattle.letters.specs.FirstPlaces.{FirstPlaces};

// How many places pass before the first that does not, of so many chunks of N. N is a `u8` and no `usize`: places within a chunk are single
// bytes, so that a processor keeps more of them at once.
pub fn passing<const N: u8, F: Fn(usize) -> bool>(chunks: usize, passes: F) -> usize
    requires size { chunks * N < 2 ^ 64 }
    requires callable { (i : ℕ) → i < chunks * N → F.pre passes i }
    ensures { FirstPlaces (λ i. F.post passes i true) (chunks * N) result }
{
    for k in 0..chunks {
        let start = k * usize::from(N);
        let mut first = N;
        for j in 0..N {
            first = first.min(if passes(start + usize::from(j)) { N } else { j });
        }
        if first < N {
            return start + usize::from(first);
        }
    }
    chunks * usize::from(N)
}
