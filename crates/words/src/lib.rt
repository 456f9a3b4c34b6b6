// Numbers and floats as bytes, low byte first; a float is its bits, with one pattern for every NaN.
#![tactic(auto)]

ghost use Rattle.std.specs.Prelude.{◌≡◌, ◌+◌, ◌≤◌, length};
ghost use Rattle.text.specs.Put.{Put};
ghost use Rattle.words.specs.Words.{bytes_of, word_at, width_of, real_at, real_bytes};

use text::real::Real;

// ---- read from bytes

// The number of k bytes, taken from the last to the first.
pub fn word_at(bytes: &[u8], at: usize, k: usize) -> u64
    requires { (k ≤ 8) × (at + k ≤ length bytes.now) }
    ensures { result ≡ word_at k bytes.now at }
{
    let mut v: u64 = 0;
    for i in (0..k).rev() {
        v = bytes[at + i] as u64 + 256 * v;
    }
    v
}

// That of four, with no loop.
fn four_at(bytes: &[u8], at: usize) -> u64
    requires { at + 4 ≤ length bytes.now }
    ensures { result ≡ word_at 4 bytes.now at }
{
    let a = bytes[at] as u64;
    let b = bytes[at + 1] as u64;
    let c = bytes[at + 2] as u64;
    let d = bytes[at + 3] as u64;
    a + 0x100 * b + 0x1_0000 * c + 0x100_0000 * d
}

pub fn real_at<T: Real>(bytes: &[u8], at: usize) -> T
    requires { at + width_of T.format ≤ length bytes.now }
    ensures { T.value result ≡ real_at T.format bytes.now at }
{
    let low = four_at(bytes, at);
    if T::DIGITS == 16 {
        T::of_bits(low + 0x1_0000_0000 * four_at(bytes, at + 4))
    } else {
        T::of_bits(low)
    }
}

// ---- written; each gives the place behind

// The k low bytes of n.
pub fn put_number(out: &mut [u8], at: usize, n: u64, k: usize) -> usize
    requires { at + k ≤ length out.old }
    ensures { Put out.old at (bytes_of k n) out.new result }
{
    let mut left = n;
    for i in 0..k {
        out[at + i] = (left % 256) as u8;
        left /= 256;
    }
    at + k
}

pub fn put_real<T: Real>(out: &mut [u8], at: usize, x: T) -> usize
    requires { at + width_of T.format ≤ length out.old }
    ensures { Put out.old at (real_bytes T.format (T.value x)) out.new result }
{
    put_number(out, at, x.bits(), T::DIGITS / 2)
}
