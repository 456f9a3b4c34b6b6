// Runs of samples into the places of a block: one value, a ramp, a target, a curve.
#![tactic(auto)]

ghost use Rattle.std.specs.Prelude.{◌≡◌, cond, ℕ, ◌≤◌, length};
ghost use Rattle.rules.specs.Numbers.{store_length, plus_zero, is_subnormal, time_at};
ghost use Rattle.rules.specs.Samples.{ramp_sample, linear_sample, target_sample, curve_sample};
ghost use Rattle.rules.specs.Walk.{from_start};
ghost use Rattle.samples.specs.At.{exponential_at, target_at};
ghost use Rattle.fills.specs.Filled.{Room, Filled, Flushed, writes_none};

use rules::{AutomationRate, BlockInfos, Finished};

// What `fill_target` gives back: how many places are filled then, and the target's value at its `end_time`.
#[derive(Clone, Copy)]
pub struct Faded {
    pub filled: usize,
    pub value: f32,
}

// ---- what the runs share

// Whether a run writes nothing: at K-rate none writes.
fn writes_none(infos: BlockInfos, filled: usize, to: usize) -> bool
    ensures { result ≡ writes_none infos.rate filled to }
{
    let rate = infos.rate;
    match rate {
        AutomationRate::K => true,
        AutomationRate::A => to <= filled,
    }
}

// The first sample time of a run that starts at a place.
fn time_at(infos: BlockInfos, place: usize) -> f64
    requires { place ≤ 1024 }
    ensures { result ≡ time_at infos place }
{
    rounding::fused64(place as u64, infos.dt, infos.time)
}

// A target's value at a time; before its start it is the intrinsic one.
fn target_value(start: f64, intrinsic: f32, constant: f64, target: f32, diff: f32, time: f64) -> f32
    ensures { result ≡ from_start start intrinsic (target_at start constant target diff) time }
{
    if time < start {
        return intrinsic;
    }
    samples::compute_set_target_sample(start, constant, target, diff, time)
}

// A curve's value at a time; before its start it is the intrinsic one.
pub fn curve_value(start: f64, intrinsic: f32, duration: f64, values: &[f32], time: f64) -> f32
    requires { (2 ≤ length values.now) × (length values.now ≤ store_length) }
    ensures { result ≡ from_start start intrinsic (curve_sample values.now start duration) time }
{
    if time < start {
        return intrinsic;
    }
    samples::compute_set_value_curve_sample(start, duration, values, time)
}

// ---- the runs: the places up to `to` are filled, and how many are filled then is given back; a ramp of no length fills with its end value

pub fn fill_value(
    infos: BlockInfos,
    buffer: &mut [f32],
    filled: usize,
    to: usize,
    value: f32,
) -> usize
    requires { Room filled to buffer.old }
    ensures { Filled infos to (λ s. value) filled buffer.old result buffer.new }
{
    if writes_none(infos, filled, to) {
        return filled;
    }
    buffer[filled..to].fill(value);
    to
}

pub fn fill_linear_ramp(
    infos: BlockInfos,
    buffer: &mut [f32],
    filled: usize,
    to: usize,
    from: Finished,
    value: f32,
    duration: f64,
) -> usize
    requires { Room filled to buffer.old }
    ensures { Filled infos to (linear_sample from value duration) filled buffer.old result buffer.new }
{
    if writes_none(infos, filled, to) {
        return filled;
    }
    if samples::has_no_length(duration) {
        return fill_value(infos, buffer, filled, to, value);
    }
    let diff = value - from.value;
    let time = time_at(infos, filled);
    runs::compute_linear_ramp_samples(
        &mut buffer[filled..to],
        from.time,
        duration,
        from.value,
        diff,
        time,
        infos.dt,
    );
    to
}

pub fn fill_exponential_ramp(
    infos: BlockInfos,
    buffer: &mut [f32],
    filled: usize,
    to: usize,
    from: Finished,
    value: f32,
    duration: f64,
    log: i64,
) -> usize
    requires { Room filled to buffer.old }
    ensures { Filled infos to (ramp_sample value duration (exponential_at from.time duration from.value log)) filled buffer.old result buffer.new }
{
    if writes_none(infos, filled, to) {
        return filled;
    }
    if samples::has_no_length(duration) {
        return fill_value(infos, buffer, filled, to, value);
    }
    let time = time_at(infos, filled);
    runs::compute_exponential_ramp_samples(
        &mut buffer[filled..to],
        from.time,
        duration,
        from.value,
        log,
        time,
        infos.dt,
    );
    to
}

pub fn fill_target(
    infos: BlockInfos,
    buffer: &mut [f32],
    filled: usize,
    to: usize,
    start: f64,
    intrinsic: f32,
    from: f32,
    target: f32,
    constant: f64,
    end_time: f64,
) -> Faded
    requires { Room filled to buffer.old }
    ensures { Filled infos to (from_start start intrinsic (target_sample from target start constant)) filled buffer.old result.filled buffer.new × (result.value ≡ from_start start intrinsic (target_sample from target start constant) end_time) }
{
    let diff = from - target;
    if writes_none(infos, filled, to) {
        let value = target_value(start, intrinsic, constant, target, diff, end_time);
        return Faded { filled, value };
    }
    let time = time_at(infos, filled);
    let value = runs::compute_set_target_samples(
        &mut buffer[filled..to],
        start,
        constant,
        target,
        diff,
        intrinsic,
        time,
        infos.dt,
        end_time,
    );
    Faded { filled: to, value }
}

pub fn fill_curve(
    infos: BlockInfos,
    buffer: &mut [f32],
    filled: usize,
    to: usize,
    start: f64,
    duration: f64,
    intrinsic: f32,
    values: &[f32],
) -> usize
    requires { Room filled to buffer.old × (2 ≤ length values.now) × (length values.now ≤ store_length) }
    ensures { Filled infos to (from_start start intrinsic (curve_sample values.now start duration)) filled buffer.old result buffer.new }
{
    if writes_none(infos, filled, to) {
        return filled;
    }
    let time = time_at(infos, filled);
    runs::compute_set_value_curve_samples(
        &mut buffer[filled..to],
        start,
        duration,
        values,
        intrinsic,
        time,
        infos.dt,
    );
    to
}

// ---- what a target that snaps does to the places filled

fn without_subnormal(value: f32) -> f32
    ensures { result ≡ cond (is_subnormal value) plus_zero value }
{
    if floats::is_subnormal(value) {
        0.0
    } else {
        value
    }
}

// Subnormal samples become 0 where the target is 0.
pub fn flush(buffer: &mut [f32], filled: usize, target: f32)
    requires { filled ≤ length buffer.old }
    ensures { Flushed target filled buffer.old buffer.new }
{
    if target == 0.0 {
        for i in 0..filled {
            buffer[i] = without_subnormal(buffer[i]);
        }
    }
}
