// White space by code points, for spans and tags. (01: "One notion of white space"; W1, F5.)
ghost use Rattle.std.specs.Prelude.{◌≡◌};
ghost use Rattle.utf8.specs.WhiteSpace.{is_white_space};

// The code points of Unicode's White_Space, rising.
const WHITE_SPACE: [u32; 25] = [
    0x9, 0xa, 0xb, 0xc, 0xd, 0x20, 0x85, 0xa0, 0x1680, 0x2000, 0x2001, 0x2002, 0x2003, 0x2004,
    0x2005, 0x2006, 0x2007, 0x2008, 0x2009, 0x200a, 0x2028, 0x2029, 0x202f, 0x205f, 0x3000,
];

// Whether a code point is in the table.
fn is_listed(code: u32) -> bool
    ensures { result ≡ is_white_space code }
{
    WHITE_SPACE.contains(&code)
}

// Whether a code point is white space. The gaps of the table, where most text lies, and its two ranges are told before it is searched: in
// line, since it is asked of each character.
#[inline(always)]
pub fn is_white_space(code: u32) -> bool
    ensures { result ≡ is_white_space code }
{
    if 0x20 < code && code < 0x85 {
        return false;
    }
    match code {
        0x9..=0xd | 0x20 | 0x2000..=0x200a => true,
        0xe..0x20 | 0xa1..0x1680 | 0x3001.. => false,
        _ => is_listed(code),
    }
}
