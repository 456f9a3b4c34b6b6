// A float written for a person: rounded to 6 places behind the point, or as its bits.
ghost use Rattle.std.specs.Prelude.{◌≡◌, ℕ, ◌+◌, ◌*◌, ◌^◌, ◌<◌, ◌≤◌, ◌⊎◌, List, [], ◌∷◌, length};
ghost use Rattle.std.specs.Float.{binary32, binary64};
ghost use Rattle.std.specs.Float.Ieee.Nearest.{closest};
ghost use Rattle.text.specs.Put.{Put};
ghost use Rattle.decimal.specs.Shown.{shown_as, shown as shown_of, sign_text, places_text, shown_text, text_of, plain_text};

use text::real::Real;
use text::write::{put_byte, put_count, put_digits, put_real, put_word};

// What of a float is shown, where it is not shown by its bits.
#[derive(Clone, Copy)]
pub enum Printed {
    NotANumber,
    Infinite(bool),
    Decimal {
        minus: bool,
        whole: u64,
        millionths: u64,
    },
}

// The millionths of m / 2^k, to the nearest, for k of 33 at least. The product has up to 73 bits: what is below
// 2^32 of it is only looked at for being there.
fn fine(m: u64, k: u64) -> u64
    requires { (m < 2 ^ 53) × (33 ≤ k) × (k ≤ 73) }
    ensures { result ≡ closest (m * 10 ^ 6) (2 ^ k) }
{
    let low = m % 0x1_0000_0000 * 1000000;
    let high = m / 0x1_0000_0000 * 1000000 + low / 0x1_0000_0000;
    if low % 0x1_0000_0000 == 0 {
        rounding::rounded(high * 2, k - 31)
    } else {
        rounding::rounded(high * 2 + 1, k - 31)
    }
}

// ±m / 2^k with all digits, for k below 33: the whole part is taken off first.
fn coarse(minus: bool, m: u64, k: u64) -> Option<Printed>
    requires { (2 ^ 52 ≤ m) × (m < 2 ^ 53) × (0 < k) × (k ≤ 32) }
    ensures { result ≡ shown_as minus m (2 ^ k) }
{
    let whole = m >> k;
    let n = rounding::rounded(m % (1u64 << k) * 1000000, k);
    Some(Printed::Decimal {
        minus,
        whole: whole + n / 1000000,
        millionths: n % 1000000,
    })
}

// ±m / 2^k, for k above 0.
fn parted(minus: bool, m: u64, k: u64) -> Option<Printed>
    requires { (0 < m) × (m < 2 ^ 53) × (0 < k) × ((2 ^ 52 ≤ m) ⊎ (32 < k)) }
    ensures { result ≡ shown_as minus m (2 ^ k) }
{
    if 73 < k {
        return None;
    }
    if k <= 32 {
        return coarse(minus, m, k);
    }
    let n = fine(m, k);
    if n == 0 {
        return None;
    }
    Some(Printed::Decimal {
        minus,
        whole: n / 1000000,
        millionths: n % 1000000,
    })
}

// ±m * 2^j / 2^1074.
fn shown_as(minus: bool, m: u64, j: u64) -> Option<Printed>
    requires { (m < 2 ^ 53) × ((2 ^ 52 ≤ m) ⊎ (j ≡ 0)) }
    ensures { result ≡ shown_as minus (m * 2 ^ j) (2 ^ 1074) }
{
    if m == 0 {
        return Some(Printed::Decimal {
            minus,
            whole: 0,
            millionths: 0,
        });
    }
    if 1085 < j {
        return None;
    }
    if 1074 <= j {
        return Some(Printed::Decimal {
            minus,
            whole: m << (j - 1074),
            millionths: 0,
        });
    }
    parted(minus, m, 1074 - j)
}

fn shown(x: f64) -> Option<Printed>
    ensures { result ≡ shown_of x }
{
    if x != x {
        return Some(Printed::NotANumber);
    }
    if floats::is_finite(x) {
        let p = rounding::Parts::of(x);
        return shown_as(p.neg, p.m, p.j);
    }
    Some(Printed::Infinite(x < 0.0))
}

fn put_sign(out: &mut [u8], at: usize, minus: bool) -> usize
    requires { at < length out.old }
    ensures { Put out.old at (sign_text minus) out.new result }
{
    if minus { put_byte(out, at, b'-') } else { at }
}

// The places behind the point, without the zeros at their end.
fn put_places(out: &mut [u8], at: usize, millionths: u64) -> usize
    requires { at + 7 ≤ length out.old }
    ensures { Put out.old at (places_text 6 millionths) out.new result }
{
    let mut n = millionths;
    for i in 0..6 {
        if n % 10 != 0 {
            let next = put_byte(out, at, b'.');
            return put_digits(out, next, n, 10, 6 - i);
        }
        n /= 10;
    }
    at
}

fn put_decimal(out: &mut [u8], at: usize, minus: bool, whole: u64, millionths: u64) -> usize
    requires { at + 28 ≤ length out.old }
    ensures { Put out.old at (shown_text (Printed.Decimal minus whole millionths)) out.new result }
{
    let next = put_sign(out, at, minus);
    let next = put_count(out, next, whole);
    put_places(out, next, millionths)
}

fn put_shown(out: &mut [u8], at: usize, s: Printed) -> usize
    requires { at + 28 ≤ length out.old }
    ensures { Put out.old at (shown_text s) out.new result }
{
    match s {
        Printed::NotANumber => put_word(out, at, b"NaN"),
        Printed::Infinite(minus) => {
            let next = put_sign(out, at, minus);
            put_word(out, next, b"inf")
        }
        Printed::Decimal {
            minus,
            whole,
            millionths,
        } => put_decimal(out, at, minus, whole, millionths),
    }
}

// A float by what is shown of it, or by its bits.
fn put_number<T: Real>(out: &mut [u8], at: usize, x: T, shown: Option<Printed>) -> usize
    requires { at + 28 ≤ length out.old }
    ensures { Put out.old at (text_of T.format (T.value x) shown) out.new result }
{
    match shown {
        Some(s) => put_shown(out, at, s),
        None => {
            let next = put_byte(out, at, b'x');
            put_real(out, next, x)
        }
    }
}

// A time, or another f64.
pub fn put_time(out: &mut [u8], at: usize, x: f64) -> usize
    requires { at + 28 ≤ length out.old }
    ensures { Put out.old at (plain_text binary64 x) out.new result }
{
    put_number(out, at, x, shown(x))
}

// A value, or another f32.
pub fn put_value(out: &mut [u8], at: usize, x: f32) -> usize
    requires { at + 28 ≤ length out.old }
    ensures { Put out.old at (plain_text binary32 x) out.new result }
{
    put_number(out, at, x, shown(std::num::f32_to_f64_with_nan(x)))
}
