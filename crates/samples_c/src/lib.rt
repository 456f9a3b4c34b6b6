// The runs of samples for programs in other languages: what speed/ measures.
#![tactic(auto)]

ghost use Rattle.std.specs.Prelude.{◌≡◌, ◌≤◌, length};
ghost use Rattle.rules.specs.Numbers.{store_length, run};
ghost use Rattle.rules.specs.Samples.{ratio_log, curve_sample};
ghost use Rattle.rules.specs.Walk.{from_start};
ghost use Rattle.samples.specs.At.{linear_at, exponential_at, target_at};

#[unsafe(no_mangle)]
pub extern "C" fn samples_linear(
    out: &mut [f32],
    start_time: f64,
    duration: f64,
    start_value: f32,
    diff: f32,
    time: f64,
    dt: f64,
)
    ensures { out.new ≡ run (linear_at start_time duration start_value diff) dt (length out.old) time }
{
    runs::compute_linear_ramp_samples(out, start_time, duration, start_value, diff, time, dt);
}

#[unsafe(no_mangle)]
pub extern "C" fn samples_ratio_log(ratio: f32) -> i64
    ensures { result ≡ ratio_log ratio }
{
    samples::ratio_log(ratio)
}

#[unsafe(no_mangle)]
pub extern "C" fn samples_exponential(
    out: &mut [f32],
    start_time: f64,
    duration: f64,
    start_value: f32,
    log: i64,
    time: f64,
    dt: f64,
)
    ensures { out.new ≡ run (exponential_at start_time duration start_value log) dt (length out.old) time }
{
    runs::compute_exponential_ramp_samples(out, start_time, duration, start_value, log, time, dt);
}

#[unsafe(no_mangle)]
pub extern "C" fn samples_target(
    out: &mut [f32],
    start_time: f64,
    time_constant: f64,
    end_value: f32,
    diff: f32,
    intrinsic: f32,
    time: f64,
    dt: f64,
)
    ensures { out.new ≡ run (from_start start_time intrinsic (target_at start_time time_constant end_value diff)) dt (length out.old) time }
{
    runs::compute_set_target_samples(
        out,
        start_time,
        time_constant,
        end_value,
        diff,
        intrinsic,
        time,
        dt,
        time,
    );
}

#[unsafe(no_mangle)]
pub extern "C" fn samples_curve(
    out: &mut [f32],
    start_time: f64,
    duration: f64,
    values: &[f32],
    intrinsic: f32,
    time: f64,
    dt: f64,
)
    requires { (2 ≤ length values.now) × (length values.now ≤ store_length) }
    ensures { out.new ≡ run (from_start start_time intrinsic (curve_sample values.now start_time duration)) dt (length out.old) time }
{
    runs::compute_set_value_curve_samples(out, start_time, duration, values, intrinsic, time, dt);
}
