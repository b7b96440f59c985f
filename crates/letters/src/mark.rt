// Bytes inside quotes that are passed over many at a time. (01: Reading rules, Quoted.)
ghost use Rattle.std.specs.Prelude.{◌≡◌, ◌<◌, true, length, get_or};
ghost use Rattle.letters.specs.Marks.{Ordinary, Unmarked};

use crate::chunk::passing;
use crate::letter::BACKSLASH;

// The bytes that are looked at together. Over fewer, so short a test is not done for many bytes at once.
const CHUNK: u8 = 64;

// How many bytes a text begins with that are neither the mark nor a backslash, as far as whole chunks go.
pub fn unmarked(s: &[u8], quote: u8) -> usize
    ensures { Unmarked quote s.now result }
{
    passing::<CHUNK, _>(
        s.len() / usize::from(CHUNK),
        |i|
            requires { i < length s.now }
            ensures { result ≡ true → Ordinary quote (get_or s.entry.now i 0) }
        { s[i] != quote && s[i] != BACKSLASH },
    )
}
