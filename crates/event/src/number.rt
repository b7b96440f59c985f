// Numbers in the event bytes: high byte first, in two bytes or four.
ghost use Rattle.std.specs.Prelude.{◌≡◌, ◌+◌, ◌≤◌, length};
ghost use Rattle.event.specs.Number.{number_at};

// The number in the `width` bytes from `at` on. One law over the width: by an array of each width there would be two.
pub fn number_at(events: &[u8], at: usize, width: usize) -> u32
    requires width_bound { width ≤ 4 }
    // A slice's index asks that the bytes are there.
    requires width_in_bounds { at + width ≤ length events.now }
    ensures { result ≡ number_at events.now at width }
{
    let mut n = 0;
    for &byte in &events[at..at + width] {
        n = n * 256 + u32::from(byte);
    }
    n
}
