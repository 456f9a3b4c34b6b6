// A word read as a number: counts in decimal, floats as the bits of IEEE 754 in hexadecimal.
ghost use Rattle.std.specs.Prelude.{◌≡◌, ℕ, ◌≤◌, option_map};
ghost use Rattle.text.specs.Digits.{digit_of, number_in, bits_in};
ghost use Rattle.text.specs.Floats.{float_in};

use crate::real::Real;

// A character as a digit up to `f`, or 16 where it is none: no upper-case digit is one.
pub fn digit(c: u8) -> u64
    ensures { result ≡ digit_of c }
{
    match c {
        48..=57 => (c - 48) as u64,
        97..=102 => (c - 87) as u64,
        _ => 16,
    }
}

// A word of digits in a base, up to 2^64 - 1.
fn number_in(word: &[u8], base: u64) -> Option<u64>
    requires { (1 ≤ base) × (base ≤ 16) }
    ensures { result ≡ number_in base word.now }
{
    if word.is_empty() {
        return None;
    }
    let mut value: u64 = 0;
    for c in word {
        let d = digit(*c);
        if base <= d {
            return None;
        }
        value = value.checked_mul(base)?.checked_add(d)?;
    }
    Some(value)
}

// A count in decimal; leading zeros are read.
pub fn count_in(word: &[u8]) -> Option<u64>
    ensures { result ≡ number_in 10 word.now }
{
    number_in(word, 10)
}

// A word of exactly so many hexadecimal digits.
pub fn bits_in(word: &[u8], digits: usize) -> Option<u64>
    ensures { result ≡ bits_in digits word.now }
{
    if word.len() != digits {
        return None;
    }
    number_in(word, 16)
}

// 8 hexadecimal digits as an f32, 16 as an f64.
pub fn real_in<T: Real>(word: &[u8]) -> Option<T>
    ensures { option_map T.value result ≡ float_in T.format word.now }
{
    let bits = bits_in(word, T::DIGITS)?;
    Some(T::of_bits(bits))
}
