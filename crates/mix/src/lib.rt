// The mix: each sample is input + value, NaN becomes the default, all else is clamped to the range.
#![tactic(auto)]

ghost use Rattle.std.specs.Prelude.{◌≡◌, true, false, cond, ◌≤◌, length, replicate};
ghost use Rattle.std.specs.Float.{binary32};
ghost use Rattle.std.specs.Float.Ieee.{add, lt, is_nan};
ghost use Rattle.rules.specs.Numbers.{plus_zero};
ghost use Rattle.rules.specs.Mix.{mixed, mixed_all};
ghost use Rattle.mix.specs.Mixed.{over, Direct, Tried};

use rules::Bounds;

// A sample equal to a bound is unchanged.
pub fn mixed_value(bounds: Bounds, input: f32, value: f32) -> f32
    ensures { result ≡ mixed bounds input value }
{
    let x = input + value;
    if x != x {
        bounds.default
    } else if x < bounds.min {
        bounds.min
    } else if bounds.max < x {
        bounds.max
    } else {
        x
    }
}

// One sample at the first `count` places.
#[tactic(auto, unfolding(crate::specs::Mixed::over))]
pub fn put_sample(output: &mut [f32], count: usize, sample: f32)
    requires { count ≤ length output.old }
    ensures { output.new ≡ over (replicate count sample) output.old }
{
    output[..count].fill(sample);
}

// These values at the first places.
#[tactic(auto, unfolding(crate::specs::Mixed::over))]
pub fn put_values(output: &mut [f32], values: &[f32])
    requires { length values.now ≤ length output.old }
    ensures { output.new ≡ over values.now output.old }
{
    output[..values.len()].copy_from_slice(values);
}

// Whether a sum with 0.0 leaves x as it is: not where x is -0.
fn stands(x: f32) -> bool
    ensures { result ≡ true → add binary32 plus_zero x ≡ x }
{
    if x == x {
        return f32::to_bits(x) != 0x8000_0000;
    }
    false
}

// Whether the range is in order, and no end of it is -0.
fn is_direct(bounds: Bounds) -> bool
    ensures { result ≡ true → Direct bounds }
{
    if bounds.max < bounds.min {
        return false;
    }
    if stands(bounds.min) {
        return stands(bounds.max);
    }
    false
}

// Of two the larger, and b where none is: one instruction. (std's `max` leaves open which of two zeros it gives.)
fn larger(a: f32, b: f32) -> f32
    ensures { result ≡ cond (lt b a) a b }
{
    if a > b { a } else { b }
}

// Of two the smaller, and b where none is.
fn smaller(a: f32, b: f32) -> f32
    ensures { result ≡ cond (lt a b) a b }
{
    if a < b { a } else { b }
}

// A value that is no NaN, with silence: in a direct range it can be clamped before 0 is added.
fn silent_value(bounds: Bounds, value: f32) -> f32
    requires { Direct bounds }
    ensures { is_nan value ≡ false → result ≡ mixed bounds plus_zero value }
{
    0.0 + smaller(bounds.max, larger(bounds.min, value))
}

// Each value with silence, in a direct range; false where one is a NaN, and the samples are not told.
fn mix_silence_direct(bounds: Bounds, values: &[f32], output: &mut [f32]) -> bool
    requires { Direct bounds × (length values.now ≤ length output.old) }
    ensures { Tried (mixed_all bounds (replicate (length values.now) plus_zero) values.now) (length values.now) output.old result output.new }
{
    let mut told = true;
    for i in 0..values.len() {
        let value = values[i];
        if value != value {
            told = false;
        }
        output[i] = silent_value(bounds, value);
    }
    told
}

// The same where the range is direct; false where it is not.
fn mix_silence_told(bounds: Bounds, values: &[f32], output: &mut [f32]) -> bool
    requires { length values.now ≤ length output.old }
    ensures { Tried (mixed_all bounds (replicate (length values.now) plus_zero) values.now) (length values.now) output.old result output.new }
{
    if is_direct(bounds) {
        return mix_silence_direct(bounds, values, output);
    }
    false
}

// The same in any range.
fn mix_silence_any(bounds: Bounds, values: &[f32], output: &mut [f32])
    requires { length values.now ≤ length output.old }
    ensures { output.new ≡ over (mixed_all bounds (replicate (length values.now) plus_zero) values.now) output.old }
{
    for i in 0..values.len() {
        output[i] = mixed_value(bounds, 0.0, values[i]);
    }
}

// Each value with silence.
pub fn mix_silence(bounds: Bounds, values: &[f32], output: &mut [f32])
    requires { length values.now ≤ length output.old }
    ensures { output.new ≡ over (mixed_all bounds (replicate (length values.now) plus_zero) values.now) output.old }
{
    if mix_silence_told(bounds, values, output) {
        return;
    }
    mix_silence_any(bounds, values, output);
}

// Each value with its input.
pub fn mix_input(bounds: Bounds, input: &[f32], values: &[f32], output: &mut [f32])
    requires { (length input.now ≡ length values.now) × (length values.now ≤ length output.old) }
    ensures { output.new ≡ over (mixed_all bounds input.now values.now) output.old }
{
    for i in 0..values.len() {
        output[i] = mixed_value(bounds, input[i], values[i]);
    }
}

// One value with each input.
pub fn mix_one(bounds: Bounds, input: &[f32], value: f32, output: &mut [f32])
    requires { length input.now ≤ length output.old }
    ensures { output.new ≡ over (mixed_all bounds input.now (replicate (length input.now) value)) output.old }
{
    for i in 0..input.len() {
        output[i] = mixed_value(bounds, input[i], value);
    }
}
