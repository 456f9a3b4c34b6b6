// Tests of single floats, each equal to document 01's word for it; and the times that it names.
#![tactic(auto)]

ghost use Rattle.std.specs.Prelude.{◌≡◌, Float};
ghost use Rattle.rules.specs.Numbers.{is_finite, is_zero, is_positive, is_negative, is_subnormal, magnitude as magnitude_of, taken_time, later_of};

// A float type: each of its values is one of the rules' floats.
pub trait Real: Copy {
    ghost number: { Self → Float };

    // The same value as an `f64`, which holds every `f32`.
    fn widened(self) -> f64
        ensures { result ≡ number self };

    // Whether it lies between the infinities. A type may ask it in its own format: widening asks each `f32` whether it is a NaN.
    fn is_between(self) -> bool
        ensures { result ≡ is_finite (number self) }
    {
        let y = self.widened();
        (f64::NEG_INFINITY < y) & (y < f64::INFINITY)
    }
}

impl Real for f32 {
    ghost number = { λ x. x };

    #[inline(always)]
    fn widened(self) -> f64 {
        std::num::f32_to_f64_with_nan(self)
    }

    #[inline(always)]
    fn is_between(self) -> bool {
        (f32::NEG_INFINITY < self) & (self < f32::INFINITY)
    }
}

impl Real for f64 {
    ghost number = { λ x. x };

    #[inline(always)]
    fn widened(self) -> f64 {
        self
    }

    #[inline(always)]
    fn is_between(self) -> bool {
        (f64::NEG_INFINITY < self) & (self < f64::INFINITY)
    }
}

pub fn is_finite<F: Real>(x: F) -> bool
    ensures { result ≡ is_finite (F.number x) }
{
    x.is_between()
}

#[tactic(auto, unfolding(rules::specs::Numbers::is_zero))]
pub fn is_zero<F: Real>(x: F) -> bool
    ensures { result ≡ is_zero (F.number x) }
{
    x.widened() == 0.0
}

#[tactic(auto, unfolding(rules::specs::Numbers::is_positive))]
pub fn is_positive<F: Real>(x: F) -> bool
    ensures { result ≡ is_positive (F.number x) }
{
    0.0 < x.widened()
}

#[tactic(auto, unfolding(rules::specs::Numbers::is_negative))]
pub fn is_negative<F: Real>(x: F) -> bool
    ensures { result ≡ is_negative (F.number x) }
{
    x.widened() < 0.0
}

pub fn magnitude(x: f32) -> f32
    ensures { result ≡ magnitude_of x }
{
    x.abs()
}

// Below the smallest normal number, 2^-126, and not 0.
pub fn is_subnormal(x: f32) -> bool
    ensures { result ≡ is_subnormal x }
{
    x != 0.0 && magnitude(x) < f32::MIN_POSITIVE
}

#[tactic(auto, unfolding(rules::specs::Numbers::taken_time))]
pub fn taken_time(t: f64) -> f64
    ensures { result ≡ taken_time t }
{
    if is_zero(t) { 0.0 } else { t }
}

#[tactic(auto, unfolding(rules::specs::Numbers::later_of))]
pub fn later_of(s: f64, t: f64) -> f64
    ensures { result ≡ later_of s t }
{
    if s < t { t } else { s }
}

#[cfg(test)]
mod tests {
    use super::*;

    // A caller's own type, with nothing of its own but `widened`.
    #[derive(Clone, Copy)]
    struct Reading {
        value: f64,
    }

    impl Real for Reading {
        ghost number = { λ r. r.value };

        fn widened(self) -> f64 {
            self.value
        }
    }

    #[test]
    fn a_reading_is_finite(rt: HostRuntime) {
        for value in [400.0, -0.0, f64::MAX, f64::MIN] {
            assert!(rt; is_finite(Reading { value }));
        }
        for value in [f64::INFINITY, f64::NEG_INFINITY, f64::NAN] {
            assert!(rt; !is_finite(Reading { value }));
        }
    }

    #[test]
    fn a_reading_has_a_sign(rt: HostRuntime) {
        for (value, is_above, is_below) in [
            (400.0, true, false),
            (-0.0, false, false),
            (-5e-324, false, true),
            (f64::NAN, false, false),
        ] {
            let x = Reading { value };
            assert_eq!(rt; is_positive(x), is_above);
            assert_eq!(rt; is_negative(x), is_below);
            assert_eq!(rt; is_zero(x), value == 0.0);
        }
    }
}
