// The two formats of IEEE 754 that Rust has, as types: a value by its pattern, and what its pattern is made of.
ghost use Rattle.std.specs.Prelude.{◌≡◌, refl, not, ℕ, ◌+◌, ◌*◌, ◌≤◌, ◌<◌, T};
ghost use Rattle.std.specs.Float.{Format, binary32, binary64};
ghost use Rattle.std.specs.Float.Ieee.{prec, hid, ones, top, is_nan, of_bits, nan_bits};
ghost use Rattle.std.proofs.Common.{lit≤};
ghost use Rattle.rounding_laws.specs.Parts.{Widths, place};

use floats::Real;

pub trait Binary: Real {
    // The digits of a significand; in a pattern the weight of its leading one, which is not written, and the sign's; and an exponent's field of ones alone.
    const DIGITS: u64;

    const LEAD: u64;

    const SIGN: u64;

    const ONES: u64;

    // `norm` counts in units of 2^-unit, and `pack` in smaller ones.
    const SHIFT: u64;

    ghost DIGITS: { ℕ };

    ghost LEAD: { ℕ };

    ghost SIGN: { ℕ };

    ghost ONES: { ℕ };

    ghost SHIFT: { ℕ };

    ghost unit: { ℕ };

    ghost format: { Format };

    // A pattern of the value, which is no NaN.
    fn to_pattern(self) -> u64
        requires { T (not (is_nan (Self.number self))) }
        ensures { of_bits format result ≡ Self.number self };

    fn from_pattern(pattern: u64) -> Self
        requires { (pattern < 2 * top format) × T (not (nan_bits format pattern)) }
        ensures { Self.number result ≡ of_bits format pattern };

    ghost widths: { Widths format DIGITS LEAD SIGN ONES };

    ghost units: { (unit + SHIFT ≡ place format) × (63 ≤ SHIFT) × (SHIFT ≤ 1024) };
}

impl Binary for f32 {
    const DIGITS: u64 = 24;

    const LEAD: u64 = 0x80_0000;

    const SIGN: u64 = 0x8000_0000;

    const ONES: u64 = 0xff;

    const SHIFT: u64 = 722;

    ghost DIGITS = { 24 };

    ghost LEAD = { 0x80_0000 };

    ghost SIGN = { 0x8000_0000 };

    ghost ONES = { 0xff };

    ghost SHIFT = { 722 };

    ghost unit = { 363 };

    ghost format = { binary32 };

    ghost widths = { record { digits_is = refl; lead_is = refl; sign_is = refl; ones_is = refl } };

    ghost units = { (refl, lit≤ tt, lit≤ tt) };

    #[inline(always)]
    fn to_pattern(self) -> u64 {
        self.to_bits() as u64
    }

    #[inline(always)]
    fn from_pattern(pattern: u64) -> f32 {
        f32::from_bits(pattern as u32)
    }
}

impl Binary for f64 {
    const DIGITS: u64 = 53;

    const LEAD: u64 = 0x10_0000_0000_0000;

    const SIGN: u64 = 0x8000_0000_0000_0000;

    const ONES: u64 = 0x7ff;

    const SHIFT: u64 = 842;

    ghost DIGITS = { 53 };

    ghost LEAD = { 0x10_0000_0000_0000 };

    ghost SIGN = { 0x8000_0000_0000_0000 };

    ghost ONES = { 0x7ff };

    ghost SHIFT = { 842 };

    ghost unit = { 1139 };

    ghost format = { binary64 };

    ghost widths = { record { digits_is = refl; lead_is = refl; sign_is = refl; ones_is = refl } };

    ghost units = { (refl, lit≤ tt, lit≤ tt) };

    #[inline(always)]
    fn to_pattern(self) -> u64 {
        self.to_bits()
    }

    #[inline(always)]
    fn from_pattern(pattern: u64) -> f64 {
        f64::from_bits(pattern)
    }
}

#[cfg(test)]
mod tests {
    use super::*;
    use crate::{Parts, norm};

    // A caller's own type, with nothing of its own but what the two traits ask.
    #[derive(Clone, Copy)]
    struct Volts {
        held: f64,
    }

    impl Real for Volts {
        ghost number = { λ x. x.held };

        fn widened(self) -> f64 {
            self.held
        }
    }

    impl Binary for Volts {
        const DIGITS: u64 = <f64 as Binary>::DIGITS;

        const LEAD: u64 = <f64 as Binary>::LEAD;

        const SIGN: u64 = <f64 as Binary>::SIGN;

        const ONES: u64 = <f64 as Binary>::ONES;

        const SHIFT: u64 = <f64 as Binary>::SHIFT;

        ghost DIGITS = { 53 };

        ghost LEAD = { 0x10_0000_0000_0000 };

        ghost SIGN = { 0x8000_0000_0000_0000 };

        ghost ONES = { 0x7ff };

        ghost SHIFT = { 842 };

        ghost unit = { 1139 };

        ghost format = { binary64 };

        ghost widths = { record { digits_is = refl; lead_is = refl; sign_is = refl; ones_is = refl } };

        ghost units = { (refl, lit≤ tt, lit≤ tt) };

        fn to_pattern(self) -> u64 {
            self.held.to_pattern()
        }

        fn from_pattern(pattern: u64) -> Volts {
            Volts {
                held: f64::from_pattern(pattern),
            }
        }
    }

    // `norm` counts in units of 2^-1139. 400 is 0x19 and zeros, times 2^1030 of the smallest value, 2^-1074.
    #[test]
    fn volts_are_rounded_and_parted(rt: HostRuntime) {
        let x: Volts = norm(true, 400, 1139);
        assert_eq!(rt; x.held, -400.0);
        let parts = Parts::of(Volts { held: -400.0 });
        assert!(rt; parts.neg);
        assert_eq!(rt; parts.m, 0x19_0000_0000_0000);
        assert_eq!(rt; parts.j, 1030);
    }
}
