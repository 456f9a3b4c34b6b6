// Characters written into a buffer from a place on; each function gives the place behind them.
ghost use Rattle.std.specs.Prelude.{◌≡◌, List, [], ◌∷◌, ℕ, ◌+◌, ◌≤◌, ◌<◌, ◌^◌, length};
ghost use Rattle.text.specs.Digits.{glyph_of, digits_of, places_of, decimal_of};
ghost use Rattle.text.specs.Floats.{digits_for, float_text};
ghost use Rattle.text.specs.Put.{Put};

use crate::real::Real;

pub fn put_byte(out: &mut [u8], at: usize, c: u8) -> usize
    requires { at < length out.old }
    ensures { Put out.old at (c ∷ []) out.new result }
{
    out[at] = c;
    at + 1
}

pub fn put_word(out: &mut [u8], at: usize, word: &[u8]) -> usize
    requires { at + length word.now ≤ length out.old }
    ensures { Put out.old at word.now out.new result }
{
    let to = at + word.len();
    out[at..to].copy_from_slice(word);
    to
}

// The character of a digit.
fn glyph(d: u64) -> u8
    requires { d < 16 }
    ensures { result ≡ glyph_of d }
{
    if d < 10 { 48 + d as u8 } else { 87 + d as u8 }
}

// The last k digits of n, from the back to the front.
pub fn put_digits(out: &mut [u8], at: usize, n: u64, base: u64, k: usize) -> usize
    requires { (1 ≤ base) × (base ≤ 16) × (at + k ≤ length out.old) }
    ensures { Put out.old at (digits_of base k n) out.new result }
{
    let mut left = n;
    for i in (0..k).rev() {
        out[at + i] = glyph(left % base);
        left /= base;
    }
    at + k
}

// How many decimal digits n takes.
fn places(n: u64) -> usize
    ensures { (result ≡ places_of 19 n) × (result ≤ 20) }
{
    match n.checked_ilog10() {
        Some(k) => k as usize + 1,
        None => 1,
    }
}

// A count in decimal, with no leading zero.
pub fn put_count(out: &mut [u8], at: usize, n: u64) -> usize
    requires { at + 20 ≤ length out.old }
    ensures { Put out.old at (decimal_of n) out.new result }
{
    let k = places(n);
    put_digits(out, at, n, 10, k)
}

// An f32 as 8 hexadecimal digits, an f64 as 16.
pub fn put_real<T: Real>(out: &mut [u8], at: usize, x: T) -> usize
    requires { at + digits_for T.format ≤ length out.old }
    ensures { Put out.old at (float_text T.format (T.value x)) out.new result }
{
    put_digits(out, at, x.bits(), 16, T::DIGITS)
}
