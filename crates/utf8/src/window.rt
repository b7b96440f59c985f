// UTF-8 by windows: each byte is looked at with the three before it. No byte ends a loop here, so that the compiler takes many at once.
// What passes is UTF-8; what does not pass is left to the reading of characters in `utf8`. (01: R2, R3.)
//
// `p`, `q` and `r` are the three bytes before, one by one as the standard's table speaks of them: an array of them would be made anew.
ghost use Rattle.std.specs.Prelude.{◌≡◌, true, ◌≤◌, length};
ghost use Rattle.utf8.specs.Characters.{is_utf8};
ghost use Rattle.utf8.specs.Window.{BeginsCharacter, Follows, awaits, Fits, FirstFit};

use crate::class::is_continuation;

// Whether a character goes on after the bytes `p`, `q` and `r`.
fn is_awaited(p: u8, q: u8, r: u8) -> bool
    ensures { result ≡ awaits p q r }
{
    0xc0 <= r || 0xe0 <= q || 0xf0 <= p
}

// Whether a character can begin with `b`.
fn is_start(b: u8) -> bool
    ensures { result ≡ true → BeginsCharacter b }
{
    matches!(b, ..0x80 | 0xc2..0xf5)
}

// Whether `b` can follow `r` so that the form is the shortest, no surrogate, and no larger than Unicode goes.
fn is_second(r: u8, b: u8) -> bool
    ensures { result ≡ true → Follows r b }
{
    match r {
        0xe0 => 0xa0 <= b,
        0xed => b < 0xa0,
        0xf0 => 0x90 <= b,
        0xf4 => b < 0x90,
        _ => true,
    }
}

// Whether `b` can stand after `p`, `q` and `r`.
fn fits(p: u8, q: u8, r: u8, b: u8) -> bool
    ensures { result ≡ true → Fits p q r b }
{
    if is_awaited(p, q, r) {
        is_continuation(b) && is_second(r, b)
    } else {
        is_start(b)
    }
}

// 0 where `b` can stand after `p`, `q` and `r`. A number: gathered as Booleans, or over `windows`, many bytes take an eighth longer.
fn misfit(p: u8, q: u8, r: u8, b: u8) -> u8
    ensures { result ≡ 0 → Fits p q r b }
{
    if fits(p, q, r, b) { 0 } else { 1 }
}

// Whether the first three bytes can stand where they do.
fn starts_well(s: &[u8]) -> bool
    requires { 3 ≤ length s.now }
    ensures { result ≡ true → FirstFit s.now }
{
    fits(0, 0, 0, s[0]) && fits(0, 0, s[0], s[1]) && fits(0, s[0], s[1], s[2])
}

// Whether the bytes are UTF-8, as far as it shows in windows: true only of UTF-8, and of all that has three bytes or more.
pub fn passes_windows(s: &[u8]) -> bool
    ensures { result ≡ true → is_utf8 s.now ≡ true }
{
    let [.., p, q, r] = s else {
        return false;
    };
    if is_awaited(*p, *q, *r) {
        return false;
    }
    let mut misfits = 0;
    for i in 3..s.len() {
        misfits |= misfit(s[i - 3], s[i - 2], s[i - 1], s[i]);
    }
    misfits == 0 && starts_well(s)
}
