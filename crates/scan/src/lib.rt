// The first place of a byte in a part of a slice.
#![tactic(auto)]

ghost use Rattle.std.specs.Prelude.{◌≡◌, ◌+◌, ◌≤◌, ◌==◌, length, position};
ghost use Rattle.scan.specs.Bytes.{index_of, slice};

fn place_of(byte: u8, part: &[u8]) -> Option<usize>
    ensures { result ≡ position (λ x. x == byte) part.now }
{
    part.iter().position(|b| *b == byte)
}

// The first place of the byte from `from` on and before `to`, or `to` where there is none.
pub fn find(line: &[u8], from: usize, to: usize, byte: u8) -> usize
    requires { (from ≤ to) × (to ≤ length line.now) }
    ensures { (result ≡ from + index_of byte (slice from to line.now)) × (result ≤ to) }
{
    match place_of(byte, &line[from..to]) {
        Some(i) => from + i,
        None => to,
    }
}
