// Target and exponential samples by a table: where both ends of its estimate of the falling power round alike, so does the falling power between them.
#![tactic(auto)]

ghost use Rattle.std.specs.Prelude.{◌≡◌, ◌⊎◌, ◌-◌, ◌*◌, ◌/◌, ◌%◌, ◌^◌, ◌≤◌, ◌<◌, T, Float, IfSome};
ghost use Rattle.std.specs.Float.{binary64};
ghost use Rattle.std.specs.Float.Ieee.{mul, of_bits};
ghost use Rattle.std.specs.Float.Ieee.Scale.{finite};
ghost use Rattle.rules.specs.Numbers.{narrowed};
ghost use Rattle.rules.specs.Samples.{decay, factor_of};
ghost use Rattle.rounding_laws.specs.Cut.{plain_cut};
ghost use Rattle.decays.specs.Cell.{product, Cell, Lifts, Grown, Middle};
ghost use Rattle.decays.specs.Told.{Steps, shown, Shows};

// The factor of a target at y.
fn decay_by(y: f64) -> f32
    ensures { result ≡ decay y }
{
    if y >= 160.0 {
        return 0.0;
    }
    let p = samples::whole(y * 16777216.0);
    let d = powers::falling_by(p % 16777216);
    rounding::norm(false, d, 331 - p / 16777216)
}

// What shows a target's factor after the steps of b, an `f32` of 24 digits, where its last eight digits are at most 234: else one of the last 20 places up to the estimate may hold a midpoint of two.
pub fn near_of(b: u64) -> u64
    requires { Steps b }
    ensures { result % 256 ≤ 234 → Shows b result }
{
    powers::falling_near(b / 0x4_0000 % 16777216) + 107
}

// What shows it in every case, by the falling power itself.
pub fn exact_of(b: u64) -> u64
    requires { Steps b }
    ensures { Shows b result }
{
    let d = powers::falling_by(b / 0x4_0000 % 16777216);
    d + 127 + d / 256 % 2
}

// What shows it by the estimate, if that tells.
fn told_of(b: u64) -> u64
    requires { Steps b }
    ensures { Shows b result }
{
    let u = near_of(b);
    if u % 256 <= 234 {
        return u;
    }
    exact_of(b)
}

// The pattern of the factor that u shows.
pub fn shown_by(b: u64, u: u64) -> u64
    requires { Steps b × (shown b u ≤ 1023 * 2 ^ 52) }
    ensures { result ≡ shown b u }
{
    (1083901 - b / 0x400_0000_0000) * 0x10_0000_0000_0000 + u / 256 * 0x2000_0000
}

// A target's factor at y.
pub fn decay_at(y: f64) -> f64
    ensures { result ≡ decay y }
{
    if y >= 160.0 {
        return 0.0;
    }
    if let Some(b) = phases::raised(y * 16777216.0) {
        if b < 0x4219_f400_0000_0000 {
            return f64::from_bits(shown_by(b, told_of(b)));
        }
    }
    decay_by(y) as f64
}

// The pattern of `from` times what n is the pattern of, rounded to an `f32`, where no product with what lies up to 20 * 2^21 below n may round otherwise.
fn cell_of(from: f64, n: u64) -> Option<u64>
    requires { T (finite from) × (41943040 ≤ n) × (n ≤ 2046 * 2 ^ 52) }
    ensures { IfSome result (λ s. Cell from n s) }
{
    let high = f64::to_bits(from * f64::from_bits(n));
    let low = f64::to_bits(from * f64::from_bits(n - 0x280_0000));
    let m = high % 0x8000_0000_0000_0000;
    if m >= 0x3830_0000_0000_0000 {
        if m < 0x47d0_0000_0000_0000 {
            let r = high + 0x1000_0000;
            if low % 0x2000_0000 != 0x1000_0000 {
                if (low / 0x1000_0000 + 1) / 2 == r / 0x2000_0000 {
                    return Some(r - r % 0x2000_0000);
                }
            }
        }
    }
    None
}

fn grown_slow(from: f64, x: f64) -> f32
    requires { T (finite from) }
    ensures { result ≡ narrowed (mul binary64 from (factor_of x)) }
{
    if let Some(h) = phases::lifted(x) {
        if h >= 3573547008 && h < 12884901888 && h % 16777216 != 0 {
            let d = powers::falling_by(16777216 - h % 16777216);
            if d >= 2147483648 && d < 4294967296 {
                let f = (h / 16777216 + 510) * 0x10_0000_0000_0000 + d * 0x20_0000;
                return rounding::narrow(from * f64::from_bits(f));
            }
        }
    }
    rounding::narrow(from * samples::factor(x))
}

// The pattern of an estimate of an exponential's factor for x = L * phase, from above, where there is one.
fn grown_near(x: f64) -> Option<u64>
    ensures { IfSome result (λ n. Grown x n) }
{
    if let Some(h) = phases::lifted(x) {
        if h >= 3573547008 && h < 12884901888 && h % 16777216 != 0 {
            let e = powers::falling_near(16777216 - h % 16777216);
            if e >= 2147483668 && e < 4294967296 {
                return Some((h / 16777216 + 510) * 0x10_0000_0000_0000 + e * 0x20_0000);
            }
        }
    }
    None
}

// An exponential sample, the start value times the factor for x, narrowed; n is the estimate's pattern, if there is one.
fn grown_by(from: f64, x: f64, n: Option<u64>) -> f32
    requires { T (finite from) × IfSome n (λ m. Grown x m) }
    ensures { result ≡ narrowed (mul binary64 from (factor_of x)) }
{
    if let Some(m) = n {
        if let Some(s) = cell_of(from, m) {
            return f64::from_bits(s) as f32;
        }
    }
    grown_slow(from, x)
}

// An exponential sample for x.
pub fn grown_at(from: f64, x: f64) -> f32
    requires { T (finite from) }
    ensures { result ≡ narrowed (mul binary64 from (factor_of x)) }
{
    grown_by(from, x, grown_near(x))
}

// The pattern of an estimate, from above, of the factor for what b shows.
pub fn grown_of(b: u64) -> u64
    requires { (1082820 * 2 ^ 42 ≤ b) × (b < 1082940 * 2 ^ 42) }
    ensures { (963 * 2 ^ 52 ≤ result) × (result ≤ 1083 * 2 ^ 52) × ((b / 2 ^ 18 % 2 ^ 24 ≡ 0 → ⊥) → (x : Float) → Lifts x b → Grown x result) }
{
    let a = (16777216 - b / 0x4_0000 % 16777216) % 16777216;
    let e = powers::falling_near(a);
    (b / 0x400_0000_0000 - 1081858) * 0x10_0000_0000_0000 + e * 0x20_0000
}

// The pattern of a product by what n is the pattern of.
pub fn product_of(from: f64, n: u64) -> u64
    requires { T (finite from) × (n ≤ 2046 * 2 ^ 52) }
    ensures { result ≡ product from n }
{
    f64::to_bits(from * f64::from_bits(n))
}

// That product narrowed, where both are of middle size.
fn narrowed_of(from: f64, n: u64) -> f32
    requires { Middle from × (963 * 2 ^ 52 ≤ n) × (n ≤ 1083 * 2 ^ 52) }
    ensures { result ≡ narrowed (mul binary64 from (of_bits binary64 n)) }
{
    let h = product_of(from, n);
    let r = h + 0xfff_ffff + h / 0x2000_0000 % 2;
    f64::from_bits(r - r % 0x2000_0000) as f32
}

// An exponential sample for what b shows, by the falling power itself.
pub fn grown_exact(from: f64, b: u64) -> f32
    requires { (1082820 * 2 ^ 42 ≤ b) × (b < 1082940 * 2 ^ 42) × Middle from }
    ensures { (b / 2 ^ 18 % 2 ^ 24 ≡ 0 → ⊥) → (x : Float) → Lifts x b → result ≡ narrowed (mul binary64 from (factor_of x)) }
{
    let a = (16777216 - b / 0x4_0000 % 16777216) % 16777216;
    let d = powers::falling_by(a);
    let n = (b / 0x400_0000_0000 - 1081858) * 0x10_0000_0000_0000 + d * 0x20_0000;
    narrowed_of(from, n)
}

// What a product of `from` and a number of such size rounds to, if no midpoint of two `f32` is near.
pub fn cut_of(from: f64, n: u64, h: u64) -> f32
    requires { Middle from × (963 * 2 ^ 52 ≤ n) × (n ≤ 1083 * 2 ^ 52) × (h ≡ product from n) }
    ensures { result ≡ of_bits binary64 (plain_cut h) }
{
    let r = h + 0x1000_0000;
    f64::from_bits(r - r % 0x2000_0000) as f32
}
