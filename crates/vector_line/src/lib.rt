// One line of the list of outside vectors: read, worked out with `rounding`, and compared.
// A line is a letter, four numbers of 16 hexadecimal digits, each behind a space, and a newline: operands, then what Rust gives.
#![tactic(auto)]

ghost use Rattle.std.specs.Prelude.{◌≡◌, ◌≤◌};
ghost use Rattle.vector_line.specs.Line.{digit_of, number_at, same, narrows_to, fuses32_to, fuses64_to, holds as holds_line};

use text::real::Real;

// What a hexadecimal digit's character stands for.
fn digit(c: u8) -> u64
    ensures { result ≡ digit_of c }
{
    let d = (c as u64) % 16;
    if c < b'a' { d } else { (d + 9) % 16 }
}

// The number that begins at a place of the line.
fn number(s: &[u8; 70], at: usize) -> u64
    requires { at ≤ 54 }
    ensures { result ≡ number_at s.now at }
{
    let mut v = 0u64;
    for i in 0..16 {
        v = v * 16 + digit(s[at + i]);
    }
    v
}

// Whether two floats are the same: the two zeros differ, and a NaN is a NaN.
fn is_same<T: Real>(x: T, y: T) -> bool
    ensures { result ≡ same T.format (T.value x) (T.value y) }
{
    x.bits() == y.bits()
}

// Whether w is what the operands give: n narrows, f is fused in `f32`, d in `f64` with a whole first factor.
fn narrows(a: u64, w: u64) -> bool
    ensures { result ≡ narrows_to a w }
{
    is_same(rounding::narrow(f64::of_bits(a)), f32::of_bits(w))
}

// No twin of fuses64, whose first factor is a whole number with a bound.
fn fuses32(a: u64, b: u64, c: u64, w: u64) -> bool
    ensures { result ≡ fuses32_to a b c w }
{
    let fused = rounding::fused32(f32::of_bits(a), f32::of_bits(b), f32::of_bits(c));
    is_same(fused, f32::of_bits(w))
}

fn fuses64(a: u64, b: u64, c: u64, w: u64) -> bool
    ensures { result ≡ fuses64_to a b c w }
{
    if a > 1024 {
        return false;
    }
    let fused = rounding::fused64(a, f64::of_bits(b), f64::of_bits(c));
    is_same(fused, f64::of_bits(w))
}

// Whether a line holds.
pub fn holds(s: &[u8; 70]) -> bool
    ensures { result ≡ holds_line s.now }
{
    match s[0] {
        b'n' => narrows(number(s, 2), number(s, 53)),
        b'f' => fuses32(number(s, 2), number(s, 19), number(s, 36), number(s, 53)),
        b'd' => fuses64(number(s, 2), number(s, 19), number(s, 36), number(s, 53)),
        _ => false,
    }
}
