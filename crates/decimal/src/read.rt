// A word read as a decimal number, rounded once to an f64, or as the bits of a float.
ghost use Rattle.std.specs.Prelude.{◌≡◌, ℕ, suc, ◌+◌, ◌-◌, ◌^◌, ◌≤◌, length, pos};
ghost use Rattle.std.specs.Float.{binary32, binary64};
ghost use Rattle.std.specs.Float.Ieee.{of_int};
ghost use Rattle.std.specs.Float.Ieee.Exact.{HasValue};
ghost use Rattle.text.specs.Digits.{number_from};
ghost use Rattle.text.specs.Words.{up_to};
ghost use Rattle.scan.specs.Bytes.{index_of};
ghost use Rattle.decimal.specs.Decimals.{is_minus, sign_length, fraction_digits, digits_in, tens_in, scaled_by, unsigned_in, decimal_in, named_in, plain_in};

use text::read::{count_in, digit, real_in};
use text::words::same;

// How many tens a number is multiplied by, or divided by.
#[derive(Clone, Copy)]
pub enum Tens {
    Up(u64),
    Down(u64),
}

// Whether a number begins with a minus, and the place behind its sign.
#[derive(Clone, Copy)]
struct Sign {
    minus: bool,
    len: usize,
}

fn sign_of(word: &[u8]) -> Sign
    ensures { (result.minus ≡ is_minus word.now) × (result.len ≡ sign_length word.now) × (result.len ≤ length word.now) }
{
    if word.len() == 0 {
        return Sign {
            minus: false,
            len: 0,
        };
    }
    if word[0] == b'-' {
        return Sign {
            minus: true,
            len: 1,
        };
    }
    if word[0] == b'+' {
        return Sign {
            minus: false,
            len: 1,
        };
    }
    Sign {
        minus: false,
        len: 0,
    }
}

// What digits count behind others that count `value`, up to 2^53.
fn counted(word: &[u8], value: u64) -> Option<u64>
    requires { value ≤ 2 ^ 53 }
    ensures { result ≡ up_to (2 ^ 53) (number_from 10 value word.now) }
{
    let mut v = value;
    for c in word {
        let d = digit(*c);
        if 10 <= d {
            return None;
        }
        v = v * 10 + d;
        if 9007199254740992 < v {
            return None;
        }
    }
    Some(v)
}

// How many digits stand behind the point, whose place is known.
fn places_behind(len: usize, point: usize) -> usize
    ensures { result ≡ len - suc point }
{
    if point < len { len - point - 1 } else { 0 }
}

// Digits with a point among them, or at their end, as one whole number.
fn digits_in(word: &[u8], point: usize) -> Option<u64>
    requires { (point ≡ index_of 46 word.now) × (point ≤ length word.now) }
    ensures { result ≡ digits_in word.now }
{
    let places = places_behind(word.len(), point);
    if point + places == 0 {
        return None;
    }
    let whole = counted(&word[..point], 0)?;
    let from = word.len() - places;
    counted(&word[from..], whole)
}

// What stands behind the digits.
fn tens_in(word: &[u8]) -> Option<Tens>
    ensures { result ≡ tens_in word.now }
{
    if word.len() == 0 {
        return Some(Tens::Up(0));
    }
    let signed = &word[1..];
    let sign = sign_of(signed);
    let from = sign.len;
    let n = count_in(&signed[from..])?;
    if sign.minus {
        Some(Tens::Down(n))
    } else {
        Some(Tens::Up(n))
    }
}

// 10^k, which is an f64 up to 10^22.
fn ten_to(k: u64) -> f64
    requires { k ≤ 22 }
    ensures { result ≡ of_int binary64 (pos (10 ^ k)) }
{
    let mut power = 1.0;
    for _i in 0..k {
        power *= 10.0;
    }
    power
}

// ±d, exact.
fn signed(minus: bool, d: u64) -> f64
    requires { d ≤ 2 ^ 53 }
    ensures { HasValue result minus d 1 }
{
    if minus { -(d as f64) } else { d as f64 }
}

// ±d * 10^up / 10^down, by one operation on two numbers that are exact.
fn scaled_by(minus: bool, d: u64, up: u64, down: u64) -> Option<f64>
    requires { d ≤ 2 ^ 53 }
    ensures { result ≡ scaled_by minus d up down }
{
    if down <= up {
        if 22 < up - down {
            return None;
        }
        return Some(signed(minus, d) * ten_to(up - down));
    }
    if 22 < down - up {
        return None;
    }
    Some(signed(minus, d) / ten_to(down - up))
}

// ±d / 10^(places + n): more than 22 tens are not even added up.
fn lowered(minus: bool, d: u64, places: u64, n: u64) -> Option<f64>
    requires { d ≤ 2 ^ 53 }
    ensures { result ≡ scaled_by minus d 0 (places + n) }
{
    if 22 < n {
        return None;
    }
    if 22 - n < places {
        return None;
    }
    scaled_by(minus, d, 0, places + n)
}

// A decimal behind its sign.
fn unsigned_in(minus: bool, word: &[u8]) -> Option<f64>
    ensures { result ≡ unsigned_in minus word.now }
{
    let lower = scan::find(word, 0, word.len(), b'e');
    let end = scan::find(word, 0, lower, b'E');
    let digits = &word[..end];
    let point = scan::find(digits, 0, end, b'.');
    let d = digits_in(digits, point)?;
    let places = places_behind(end, point) as u64;
    let tens = tens_in(&word[end..])?;
    match tens {
        Tens::Up(n) => scaled_by(minus, d, n, places),
        Tens::Down(n) => lowered(minus, d, places, n),
    }
}

fn decimal_in(word: &[u8]) -> Option<f64>
    ensures { result ≡ decimal_in word.now }
{
    let sign = sign_of(word);
    let from = sign.len;
    unsigned_in(sign.minus, &word[from..])
}

// NaN, an infinity or a decimal.
fn named_in(word: &[u8]) -> Option<f64>
    ensures { result ≡ named_in word.now }
{
    if same(word, b"NaN") {
        return Some(0.0 / 0.0);
    }
    if same(word, b"inf") {
        return Some(f64::from_bits(0x7ff0_0000_0000_0000));
    }
    if same(word, b"-inf") {
        return Some(f64::from_bits(0xfff0_0000_0000_0000));
    }
    decimal_in(word)
}

// A time, a time constant, a duration or a period.
pub fn time_in(word: &[u8]) -> Option<f64>
    ensures { result ≡ plain_in binary64 word.now }
{
    if word.len() == 0 {
        return None;
    }
    if word[0] == b'x' {
        return real_in(&word[1..]);
    }
    named_in(word)
}

// A value.
pub fn value_in(word: &[u8]) -> Option<f32>
    ensures { result ≡ plain_in binary32 word.now }
{
    if word.len() == 0 {
        return None;
    }
    if word[0] == b'x' {
        return real_in(&word[1..]);
    }
    let x = named_in(word)?;
    Some(rounding::narrow(x))
}
