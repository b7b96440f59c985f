// Buffers of numbers that are lent.
ghost use Rattle.std.specs.Prelude.{◌≡◌, ◌+◌, ◌≤◌, min, length};
ghost use Rattle.std.proofs.lemmas.List.Edits.{sets};
ghost use Rattle.records.specs.Layout.{pieces_limit};

use provenance::write::PIECE_WIDTH;

// The most numbers of the pieces' buffer that are used: those of 4,294,967,294 pieces, so that their count fits its number.
const PIECES_LIMIT: usize = PIECE_WIDTH * 4_294_967_294;

// How many numbers of the pieces' buffer are used.
pub fn usable(size: usize) -> usize
    ensures { result ≡ min size pieces_limit }
{
    size.min(PIECES_LIMIT)
}

// The numbers are written from `at` on.
pub fn put(buffer: &mut [u32], at: usize, numbers: &[u32])
    requires { at + length numbers.now ≤ length buffer.old }
    ensures { buffer.new ≡ sets buffer.old at numbers.now }
{
    // Not by `copy_from_slice`: it reads several at once, and waits where each was only just written by itself.
    for (i, &number) in numbers.iter().enumerate() {
        buffer[at + i] = number;
    }
}
