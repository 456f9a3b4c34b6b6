// The two float types, each as the bits of its format.
ghost use Rattle.std.specs.Prelude.{◌≡◌, ℕ};
ghost use Rattle.std.specs.Prelude.{Float};
ghost use Rattle.std.specs.Float.{Format, binary32, binary64};
ghost use Rattle.std.specs.Float.Ieee.{to_bits};
ghost use Rattle.text.specs.Floats.{digits_for, of_word};
ghost use Rattle.std.proofs.Common.{refl};

pub trait Real: Copy {
    // how many hexadecimal digits its bits take
    const DIGITS: usize;

    ghost DIGITS: { ℕ };

    ghost format: { Format };

    ghost value: { Self → Float };

    // The float of the number's low bits, whatever they are: a NaN's own bits are not kept.
    fn of_bits(bits: u64) -> Self
        ensures { value result ≡ of_word format bits };

    // Its bits, with one pattern for every NaN.
    fn bits(self) -> u64
        ensures is { result ≡ to_bits format (value self) }
        ensures back { of_word format (to_bits format (value self)) ≡ value self };

    ghost digits_is: { DIGITS ≡ digits_for format };
}

impl Real for f32 {
    const DIGITS: usize = 8;

    ghost DIGITS = { 8 };

    ghost format = { binary32 };

    ghost value = { λ x. x };

    ghost digits_is = { refl };

    fn of_bits(bits: u64) -> f32 {
        let low = (bits % 0x1_0000_0000) as u32;
        if 0x7f80_0000 < low % 0x8000_0000 {
            0.0 / 0.0
        } else {
            f32::from_bits(low)
        }
    }

    fn bits(self) -> u64 {
        if self != self {
            0x7fc0_0000
        } else {
            u64::from(f32::to_bits(self))
        }
    }
}

impl Real for f64 {
    const DIGITS: usize = 16;

    ghost DIGITS = { 16 };

    ghost format = { binary64 };

    ghost value = { λ x. x };

    ghost digits_is = { refl };

    fn of_bits(bits: u64) -> f64 {
        if 0x7ff0_0000_0000_0000 < bits % 0x8000_0000_0000_0000 {
            0.0 / 0.0
        } else {
            f64::from_bits(bits)
        }
    }

    fn bits(self) -> u64 {
        if self != self {
            0x7ff8_0000_0000_0000
        } else {
            f64::to_bits(self)
        }
    }
}
