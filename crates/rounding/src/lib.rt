// IEEE 754's narrowing of an `f64` to an `f32`, and fused products, each rounded once, to the nearest, ties to even.
// A fast path through `f64` where its result shows that nothing is lost, and whole-number arithmetic on the bits everywhere else.
#![tactic(auto)]

mod formats;

ghost use Rattle.std.specs.Prelude.{◌≡◌, cond, not, ◌⊎◌, ◌+◌, ◌*◌, ◌/◌, ◌%◌, ◌^◌, ◌≤◌, ◌<◌, T, eqb};
ghost use Rattle.std.specs.Float.{binary32, binary64};
ghost use Rattle.std.specs.Float.Ieee.{round, top, fits, is_nan, of_bits};
ghost use Rattle.std.specs.Float.Ieee.Scale.{finite};
ghost use Rattle.std.specs.Float.Ieee.Nearest.{closest};
ghost use Rattle.rules.specs.Numbers.{narrowed, fused, wide};
ghost use Rattle.rounding_laws.specs.Parts.{Parted, Packed, place};
ghost use Rattle.rounding_laws.specs.Stuck.{Added, Sums};
ghost use Rattle.rounding_laws.specs.Cut.{even_cut};

use floats::is_finite;
pub use formats::Binary;

// The exponent at which `pack` meets the smallest normal number.
const NORMAL: u64 = 896;

// Of a pattern of 64 bits: the sign, and the lowest bit of the exponent's field.
const SIGN: u64 = 0x8000_0000_0000_0000;

const FIELD: u64 = 0x10_0000_0000_0000;

// Patterns of 2^-125 and 2^126: from the one up to the other an `f64` narrows to a normal `f32` with room to spare.
const LOW: u64 = 0x3820_0000_0000_0000;

const HIGH: u64 = 0x47d0_0000_0000_0000;

// The lowest bit of an `f64`'s pattern that an `f32` keeps, the bit below it, and all bits below that.
const LAST: u64 = 0x2000_0000;

const HALF: u64 = 0x1000_0000;

const UNDER: u64 = 0xfff_ffff;

// d / 2^sh to the nearest whole number, a tie to the even one.
pub fn rounded(d: u64, sh: u64) -> u64
    requires { (0 < sh) × (sh ≤ 64) }
    ensures { result ≡ closest d (2 ^ sh) }
{
    // the quotient and the first bit that is dropped
    let h = d >> (sh - 1);
    let q = h / 2;
    if h % 2 == 0 {
        q
    } else if d % (1u64 << (sh - 1)) == 0 {
        q + q % 2
    } else {
        q + 1
    }
}

// The sign's bit.
fn sign<F: Binary>(neg: bool) -> u64
    ensures { result ≡ cond neg (top F.format) 0 }
{
    if neg { F::SIGN } else { 0 }
}

// The pattern, without its sign, of d * 2^e / 2^place rounded to an F. d has its highest bit at 63, or the result is below the smallest normal number.
fn pattern<F: Binary>(d: u64, e: u64) -> u64
    requires { (2 ^ 63 ≤ d) ⊎ (e ≤ 896) }
    ensures { Packed F.format d e (place F.format) result }
{
    let dropped = 64 - F::DIGITS;
    if e >= NORMAL - 1 + F::ONES {
        F::ONES * F::LEAD
    } else if e >= NORMAL {
        (e - NORMAL) * F::LEAD + rounded(d, dropped)
    } else if e + F::DIGITS >= NORMAL {
        rounded(d, NORMAL + dropped - e)
    } else {
        0
    }
}

// d * 2^e / 2^place, rounded once to an F.
fn pack<F: Binary>(neg: bool, d: u64, e: u64) -> F
    requires { (2 ^ 63 ≤ d) ⊎ (e ≤ 896) }
    ensures { F.number result ≡ round F.format neg (d * 2 ^ e) (2 ^ place F.format) }
{
    F::from_pattern(sign::<F>(neg) + pattern::<F>(d, e))
}

// d * 2^e / 2^unit, rounded once to an F.
pub fn norm<F: Binary>(neg: bool, d: u64, e: u64) -> F
    requires { e < 4096 }
    ensures { F.number result ≡ round F.format neg (d * 2 ^ e) (2 ^ F.unit) }
{
    if d == 0 {
        pack(neg, 0, 0)
    } else {
        let z = u64::leading_zeros(d);
        pack(neg, d << z, e + F::SHIFT - (z as u64))
    }
}

// ±m * 2^j; of a finite float, in units of its format's smallest value.
#[derive(Clone, Copy)]
pub struct Parts {
    pub neg: bool,
    pub m: u64,
    pub j: u64,
}

impl Parts {
    pub fn of<F: Binary>(x: F) -> Parts
        requires { T (finite (F.number x)) }
        ensures { Parted F.format (F.number x) result.neg result.m result.j }
    {
        let b = x.to_pattern();
        let neg = b >= F::SIGN;
        let ex = b % F::SIGN / F::LEAD;
        let t = b % F::LEAD;
        if ex == 0 {
            Parts { neg, m: t, j: 0 }
        } else {
            Parts {
                neg,
                m: t + F::LEAD,
                j: ex - 1,
            }
        }
    }
}

// A whole part, and whether there is a fraction beside it.
#[derive(Clone, Copy)]
struct Quotient {
    q: u64,
    rest: bool,
}

// y / 2^k.
fn cut(y: u64, k: u64) -> Quotient
    ensures { (result.q ≡ y / 2 ^ k) × (result.rest ≡ not (eqb (y % 2 ^ k) 0)) }
{
    if k >= 64 {
        Quotient { q: 0, rest: y != 0 }
    } else {
        Quotient {
            q: y >> k,
            rest: y % (1u64 << k) != 0,
        }
    }
}

// d with its last bit set where something was cut.
fn sticky(d: u64, rest: bool) -> u64
    ensures { result ≡ cond rest (d / 2 * 2 + 1) d }
{
    if rest { d / 2 * 2 + 1 } else { d }
}

// Twice the sum of a and b. What is cut leaves the digits odd. A difference keeps one digit more, since its leading ones can cancel.
#[inline(always)]
fn added(a: Parts, b: Parts) -> Parts
    requires { (a.m < 2 ^ 63) × (b.m < 2 ^ 63) × (b.j ≤ a.j) × (a.j < 4096) }
    ensures { Added a.neg a.m a.j b.neg b.m b.j result.neg result.m result.j }
{
    let j = a.j;
    if a.neg == b.neg {
        let w = cut(b.m, j - b.j);
        return Parts {
            neg: a.neg,
            m: sticky(a.m + w.q, w.rest),
            j: j + 1,
        };
    }
    let v = a.m * 2;
    let w = cut(b.m * 2, j - b.j);
    let c = if w.rest { w.q + 1 } else { w.q };
    if v < c {
        return Parts {
            neg: b.neg,
            m: sticky(w.q - v, w.rest),
            j,
        };
    }
    let m = sticky(v - c, w.rest);
    Parts {
        neg: if m == 0 { false } else { a.neg },
        m,
        j,
    }
}

// Twice the sum of a and b, over 2^64. h is how far the digits of b may be shifted to the left.
#[inline(always)]
fn total(a: Parts, b: Parts, h: u64) -> Parts
    requires { (0 < a.m) × (a.m < 2 ^ 63) × (b.m * 2 ^ h < 2 ^ 63) × (a.j < 2048) × (b.j < 2048) × (h < 64) }
    ensures { (result.j < 4096) × Sums a.neg a.m a.j b.neg b.m b.j h result.neg result.m result.j }
{
    let z = u64::leading_zeros(a.m) - 1;
    let x = Parts {
        neg: a.neg,
        m: a.m << z,
        j: a.j + 64 - (z as u64),
    };
    let y = Parts {
        neg: b.neg,
        m: b.m << h,
        j: b.j + 64 - h,
    };
    if y.j <= x.j { added(x, y) } else { added(y, x) }
}

// a * b + c of finite numbers, rounded once. Where a or b is a zero, the sum of the product and c is right as it stands.
fn fused_finite32(a: f32, b: f32, c: f32) -> f32
    requires { T (finite a) × T (finite b) × T (finite c) }
    ensures { result ≡ fused binary32 a b c }
{
    let x = Parts::of(a);
    let y = Parts::of(b);
    let z = Parts::of(c);
    let m = x.m * y.m;
    if m == 0 {
        return a * b + c;
    }
    let product = Parts {
        neg: x.neg != y.neg,
        m,
        j: x.j + y.j,
    };
    let c = Parts {
        neg: z.neg,
        m: z.m,
        j: z.j + 149,
    };
    let r = total(product, c, 39);
    norm(r.neg, r.m, r.j)
}

// a * b + c, rounded once. By whole numbers alone.
fn fused_whole32(a: f32, b: f32, c: f32) -> f32
    ensures { result ≡ fused binary32 a b c }
{
    if is_finite(a) {
        if is_finite(b) {
            if is_finite(c) {
                fused_finite32(a, b, c)
            } else {
                c
            }
        } else {
            a * b + c
        }
    } else {
        a * b + c
    }
}

// x as an `f32`, rounded once. A NaN gives a NaN. By whole numbers alone.
fn narrow_whole(x: f64) -> f32
    ensures { result ≡ narrowed x }
{
    if is_finite(x) {
        let p = Parts::of(x);
        pack(p.neg, p.m * 2048, p.j)
    } else if x < 0.0 {
        f32::from_bits(0xff80_0000)
    } else if x > 0.0 {
        f32::from_bits(0x7f80_0000)
    } else {
        0.0 / 0.0
    }
}

// n * p + t of finite numbers, rounded once.
fn fused_finite64(n: u64, p: f64, t: f64) -> f64
    requires { (n ≤ 1024) × T (finite p) × T (finite t) }
    ensures { result ≡ fused binary64 (wide n) p t }
{
    let y = Parts::of(p);
    // a block's usual count, whose product is exact
    if n == 128 {
        if y.j < 2000 {
            return (n as f64) * p + t;
        }
    }
    let z = Parts::of(t);
    let m = n * y.m;
    if m == 0 {
        return (n as f64) * p + t;
    }
    let product = Parts {
        neg: y.neg,
        m,
        j: y.j,
    };
    let r = total(product, z, 10);
    norm(r.neg, r.m, r.j)
}

// n * p + t, rounded once, for a small whole number n.
pub fn fused64(n: u64, p: f64, t: f64) -> f64
    requires { n ≤ 1024 }
    ensures { result ≡ fused binary64 (wide n) p t }
{
    if is_finite(p) {
        if is_finite(t) {
            fused_finite64(n, p, t)
        } else {
            t
        }
    } else {
        (n as f64) * p + t
    }
}

// The pattern n of an `f64` in the range of `f32`'s normal numbers, rounded at bit 29, a tie to the even one.
fn even(n: u64) -> f64
    requires { (898 * 2 ^ 52 ≤ n % 2 ^ 63) × (n % 2 ^ 63 < 1149 * 2 ^ 52) }
    ensures { result ≡ of_bits binary64 (even_cut n) }
{
    let r = n + UNDER + n / LAST % 2;
    f64::from_bits(r - r % LAST)
}

// x as an `f32`, rounded once. A NaN gives a NaN. In the range of `f32`'s normal numbers the pattern is rounded at its bit 29.
pub fn narrow(x: f64) -> f32
    ensures { result ≡ narrowed x }
{
    if x == x {
        let b = f64::to_bits(x);
        let m = b % SIGN;
        if m >= LOW {
            if m < HIGH {
                return even(b) as f32;
            }
        }
    }
    narrow_whole(x)
}

// a * b + c of values of `f32`, rounded once to an `f32`. Where the exponents show that the sum is exact as an `f64`, a midpoint is a tie.
fn fused_tie(a: f64, b: f64, c: f64) -> f32
    requires t { T (fits binary32 a) × T (fits binary32 b) × T (fits binary32 c) }
    requires t_2 { T (not (is_nan a)) × T (not (is_nan b)) × T (not (is_nan c)) }
    ensures { result ≡ fused binary32 a b c }
{
    let s = a * b + c;
    if s == s {
        let n = f64::to_bits(s);
        let m = n % SIGN;
        if m >= LOW {
            if m < HIGH {
                let f = m / FIELD;
                let fa = f64::to_bits(a) % SIGN / FIELD;
                let fb = f64::to_bits(b) % SIGN / FIELD;
                let z = f64::to_bits(c) % SIGN;
                if f + 1017 <= fa + fb {
                    if z == 0 {
                        return even(n) as f32;
                    }
                    if f <= z / FIELD + 29 {
                        return even(n) as f32;
                    }
                }
            }
        }
    }
    fused_whole32(a as f32, b as f32, c as f32)
}

// a * b + c of values of `f32`, rounded once to an `f32`. The product is exact. The sum, rounded to an `f64`, rounds to the same `f32` unless it is a midpoint.
pub fn fused_wide(a: f64, b: f64, c: f64) -> f32
    requires t { T (fits binary32 a) × T (fits binary32 b) × T (fits binary32 c) }
    requires t_2 { T (not (is_nan a)) × T (not (is_nan b)) × T (not (is_nan c)) }
    ensures { result ≡ fused binary32 a b c }
{
    let s = a * b + c;
    if s == s {
        let n = f64::to_bits(s);
        let m = n % SIGN;
        if m >= LOW {
            if m < HIGH {
                let r = n + HALF;
                let l = r % LAST;
                if l != 0 {
                    return f64::from_bits(r - l) as f32;
                }
            }
        }
    }
    fused_tie(a, b, c)
}

// a * b + c, rounded once.
pub fn fused32(a: f32, b: f32, c: f32) -> f32
    ensures { result ≡ fused binary32 a b c }
{
    if a == a {
        if b == b {
            if c == c {
                return fused_wide(a as f64, b as f64, c as f64);
            }
        }
    }
    fused_whole32(a, b, c)
}
