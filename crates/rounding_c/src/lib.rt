// The functions of `rounding` for a program in Rust or C.
#![tactic(auto)]

ghost use Rattle.std.specs.Prelude.{◌≡◌, ◌≤◌};
ghost use Rattle.std.specs.Float.{binary32, binary64};
ghost use Rattle.rules.specs.Numbers.{narrowed, fused, wide};

#[unsafe(no_mangle)]
pub extern "C" fn rounding_narrow(x: f64) -> f32
    ensures { result ≡ narrowed x }
{
    rounding::narrow(x)
}

#[unsafe(no_mangle)]
pub extern "C" fn rounding_fused32(a: f32, b: f32, c: f32) -> f32
    ensures { result ≡ fused binary32 a b c }
{
    rounding::fused32(a, b, c)
}

#[unsafe(no_mangle)]
pub extern "C" fn rounding_fused64(n: u64, p: f64, t: f64) -> f64
    requires { n ≤ 1024 }
    ensures { result ≡ fused binary64 (wide n) p t }
{
    rounding::fused64(n, p, t)
}
