// What fast paths share: floors and sums seen in the patterns of `f64` values, and with them the sum of a linear or a curve's sample.
#![tactic(auto)]

ghost use Rattle.std.specs.Prelude.{◌≡◌, true, IfSome, ◌⊎◌, ◌+◌, ◌-◌, ◌*◌, ◌/◌, ◌^◌, ◌≤◌, ◌<◌, T};
ghost use Rattle.std.specs.Float.{binary32};
ghost use Rattle.std.specs.Float.Ieee.{fits, eq};
ghost use Rattle.std.specs.Float.Ieee.Scale.{finite};
ghost use Rattle.rules.specs.Numbers.{plus_zero, narrowed, fused};
ghost use Rattle.phases.specs.Patterns.{Lifted, Raised, Holds};
ghost use Rattle.phases.specs.Once.{Grid, Once, Within, Served};

// The pattern of x + 3 * 2^33 where it is `least` at least, below 2^35, and one of its last 18 digits is set. These are x's fraction, and no rounding has reached the whole part.
fn seen_from(x: f64, least: u64) -> Option<u64>
    requires { 1057 * 2 ^ 52 ≤ least }
    ensures { IfSome result (λ b. (least ≤ b) × (b < 1058 * 2 ^ 52) × Lifted x ((b - 1057 * 2 ^ 52) / 2 ^ 18)) }
{
    let v = x + 25769803776.0;
    if v.is_nan() {
        return None;
    }
    let b = f64::to_bits(v);
    if b >= least && b < 0x4220_0000_0000_0000 && b % 0x4_0000 != 0 {
        Some(b)
    } else {
        None
    }
}

// 2^33 more than the whole number next below x, where it is seen.
pub fn lifted(x: f64) -> Option<u64>
    ensures { IfSome result (λ h. Lifted x h × (h < 2 ^ 34)) }
{
    let b = seen_from(x, 0x4210_0000_0000_0000)?;
    Some((b - 0x4210_0000_0000_0000) / 0x4_0000)
}

// The pattern of x + 3 * 2^33, where it shows the whole part of an x from 0 on.
pub fn raised(x: f64) -> Option<u64>
    ensures { IfSome result (Raised x) }
{
    seen_from(x, 0x4218_0000_0000_0000)
}

// The pattern of x rounded to an `f32`, where x lies in the range of the normal ones above 0.
pub fn cut_phase(x: f64) -> Option<u64>
    ensures { IfSome result (λ n. Holds n (narrowed x)) }
{
    if x.is_nan() {
        return None;
    }
    let b = f64::to_bits(x);
    if b < 0x3820_0000_0000_0000 || b >= 0x47d0_0000_0000_0000 {
        return None;
    }
    let q = b + 0xfff_ffff + b / 0x2000_0000 % 2;
    Some(q - q % 0x2000_0000)
}

// The pattern of a * b + c rounded once to an `f32`. The sum as an `f64` rounds to the same one unless it is a midpoint of two.
pub fn cut_sum(a: f64, b: f64, c: f64) -> Option<u64>
    requires { T (fits binary32 a) × T (fits binary32 b) × T (fits binary32 c) }
    ensures { IfSome result (λ n. Holds n (fused binary32 a b c)) }
{
    let s = a * b + c;
    if s.is_nan() {
        return None;
    }
    let n = f64::to_bits(s);
    let m = n % 0x8000_0000_0000_0000;
    if m < 0x3820_0000_0000_0000 || m >= 0x47d0_0000_0000_0000 {
        return None;
    }
    let r = n + 0x1000_0000;
    let l = r % 0x2000_0000;
    if l != 0 { Some(r - l) } else { None }
}

// a * y + c, where y is x rounded to an `f32`.
pub fn phase_sum_of(a: f32, x: f64, c: f32) -> f32
    ensures { result ≡ fused binary32 a (narrowed x) c }
{
    if !a.is_nan() && !c.is_nan() {
        if let Some(y) = cut_phase(x) {
            if let Some(s) = cut_sum(a as f64, f64::from_bits(y), c as f64) {
                return f64::from_bits(s) as f32;
            }
        }
    }
    rounding::fused32(a, rounding::narrow(x), c)
}

// The same of values held as `f64` at an x that is a zero, as where a ramp begins at a sample's time: the product is a zero, and the sum is rounded once.
fn sum_at_zero(a: f64, x: f64, c: f64) -> f32
    requires t { T (fits binary32 a) × T (fits binary32 c) × T (finite a) × T (finite c) }
    requires plus_zero_value { eq x plus_zero ≡ true }
    ensures { result ≡ fused binary32 a (narrowed x) c }
{
    (a as f32) * (x as f32) + (c as f32)
}

// The same at any x, by the functions of `rounding`.
fn phase_sum_slow(a: f64, x: f64, c: f64) -> f32
    requires { T (fits binary32 a) × T (fits binary32 c) × T (finite a) × T (finite c) }
    ensures { result ≡ fused binary32 a (narrowed x) c }
{
    if x == 0.0 {
        return sum_at_zero(a, x, c);
    }
    let y = rounding::narrow(x);
    if y == y {
        return rounding::fused_wide(a, y as f64, c);
    }
    rounding::fused32(a as f32, y, c as f32)
}

// a * y + c, where nothing of the sum is left to test: the tests for exactness are made once a ramp.
pub fn sum_once(a: f64, y: f64, c: f64) -> f32
    requires t { T (fits binary32 a) × T (fits binary32 c) × T (finite a) × T (finite c) }
    requires served { Served a c y }
    ensures { result ≡ fused binary32 a y c }
{
    let s = a * y + c;
    let n = f64::to_bits(s);
    let r = n + 0xfff_ffff + n / 0x2000_0000 % 2;
    f64::from_bits(r - r % 0x2000_0000) as f32
}

// a * y + c, where y is x rounded to an `f32`, at an x from the pattern bx up to 1.
pub fn phase_sum_within(a: f64, x: f64, c: f64, bx: u64) -> f32
    requires t { T (fits binary32 a) × T (fits binary32 c) × T (finite a) × T (finite c) }
    requires once { Once a c bx × Within bx x }
    ensures { result ≡ fused binary32 a (narrowed x) c }
{
    let b = f64::to_bits(x);
    let q = b + 0xfff_ffff + b / 0x2000_0000 % 2;
    sum_once(a, f64::from_bits(q - q % 0x2000_0000), c)
}

// The pattern of the same at an x up to 1, for any finite a and c, or 0. It has few tests, so that several can be worked out side by side; 0 and no Option, since callers store what they get without a test.
pub fn phase_sum_seen(a: f64, x: f64, c: f64) -> u64
    requires t { T (fits binary32 a) × T (fits binary32 c) × T (finite a) × T (finite c) }
    requires within { Within (898 * 2 ^ 52) x }
    ensures { (result ≡ 0) ⊎ Holds result (fused binary32 a (narrowed x) c) }
{
    let b = f64::to_bits(x);
    let q = b + 0xfff_ffff + b / 0x2000_0000 % 2;
    let y = f64::from_bits(q - q % 0x2000_0000);
    let n = f64::to_bits(a * y + c);
    let m = n % 0x8000_0000_0000_0000;
    let r = n + 0x1000_0000;
    let l = r % 0x2000_0000;
    if m >= 0x3820_0000_0000_0000 {
        if m < 0x47d0_0000_0000_0000 {
            if l != 0 {
                return r - l;
            }
        }
    }
    0
}

// The sum at any x.
pub fn phase_sum_once(a: f64, x: f64, c: f64, bx: u64) -> f32
    requires t { T (fits binary32 a) × T (fits binary32 c) × T (finite a) × T (finite c) }
    requires once { Once a c bx }
    ensures { result ≡ fused binary32 a (narrowed x) c }
{
    if x == x {
        let b = f64::to_bits(x);
        if b >= bx {
            if b <= 0x3ff0_0000_0000_0000 {
                return phase_sum_within(a, x, c, bx);
            }
        }
    }
    phase_sum_slow(a, x, c)
}

// 2 more than the larger, and 950 at least.
fn higher(a: u64, b: u64) -> u64
    requires { (a < 2048) × (b < 2048) }
    ensures { (a + 2 ≤ result) × (b + 2 ≤ result) × (950 ≤ result) × (result < 2050) }
{
    if a < 948 {
        if b < 948 {
            return 950;
        }
        return b + 2;
    }
    if a < b {
        return b + 2;
    }
    a + 2
}

// Which power of two divides a, by its pattern.
fn grid_of(a: f64) -> Option<u64>
    requires { T (finite a) }
    ensures { IfSome result (λ grid. Grid a grid × (grid < 4096)) }
{
    let b = f64::to_bits(a);
    let m = b % 0x8000_0000_0000_0000;
    if m == 0 {
        return Some(1196);
    }
    let f = m / 0x10_0000_0000_0000;
    if f < 897 {
        return None;
    }
    if b % 0x2000_0000_0000 == 0 {
        Some(f + 16)
    } else {
        Some(f)
    }
}

// The smallest pattern of an x from which on `phase_sum_once` serves a and c.
pub fn once_from(a: f64, c: f64) -> Option<u64>
    requires { T (finite a) × T (finite c) }
    ensures { IfSome result (Once a c) }
{
    let z = f64::to_bits(c) % 0x8000_0000_0000_0000;
    let fa = f64::to_bits(a) % 0x8000_0000_0000_0000 / 0x10_0000_0000_0000;
    let high = higher(fa, z / 0x10_0000_0000_0000);
    let grid = grid_of(a)?;
    if high > 1147 {
        return None;
    }
    // few phases would be so large
    if high >= grid + 4 {
        return None;
    }
    if z != 0 {
        if high > z / 0x10_0000_0000_0000 + 29 {
            return None;
        }
    }
    if high + 119 <= grid {
        return Some(0x3820_0000_0000_0000);
    }
    Some((high + 1017 - grid) * 0x10_0000_0000_0000)
}
