// The samples of the four kinds of event, named as in the Rust, a ramp's value, and the end place of a time.
#![tactic(auto)]

ghost use Rattle.std.specs.Prelude.{◌≡◌, ◌-◌, ◌*◌, ◌^◌, ◌<◌, ◌≤◌, true, length, pos, neg_ℤ};
ghost use Rattle.rules.specs.Numbers.{store_length, whole_part, narrowed, periods_to, limit, place_from, end_place};
ghost use Rattle.rules.specs.Samples.{decay_of, decay as decay_at, ratio_log, power as power_of, factor_of, has_no_length, ramp_sample, linear_sample, curve_sample};
ghost use Rattle.laws.specs.Sound.{is_number};
ghost use Rattle.samples.specs.At.{linear_at, exponential_at, exponential_over, target_at, held};
ghost use Rattle.samples.specs.Search.{Among, FewTests};

use rules::{BlockInfos, Finished};

// Rust's `x as u64`: without the fraction, 0 below 0 and for a NaN, and the largest number past the end. Fast below 2^33 (see `phases::raised`).
#[tactic(auto, unfolding(rules::specs::Numbers::whole_part))]
pub fn whole(x: f64) -> u64
    ensures { result ≡ whole_part x }
{
    match phases::raised(x) {
        Some(b) => (b - 0x4218_0000_0000_0000) / 0x4_0000,
        None => std::num::saturating_f64_to_u64(x),
    }
}

// The factor of a target after p steps of 2^-24.
pub fn decay_steps(p: u64) -> f32
    requires { p < 161 * 2 ^ 24 }
    ensures { result ≡ narrowed (decay_of p) }
{
    rounding::norm(
        false,
        kernels::falling_power(p % 16777216),
        331 - p / 16777216,
    )
}

// The factor of a target at y = x * log2(e).
pub fn decay(y: f64) -> f32
    ensures { result ≡ decay_at y }
{
    if y >= 160.0 {
        return 0.0;
    }
    decay_steps(whole(y * 16777216.0))
}

// L of a ratio: the log of its leading 32 digits behind the place of the first. As an f64 every f32 but 0 has its digits in one place.
pub fn ratio_log(ratio: f32) -> i64
    ensures { result ≡ ratio_log ratio }
{
    if floats::is_finite(ratio) {
        if ratio == 0.0 {
            return -16777216;
        }
        let b = f64::to_bits(ratio as f64) % 0x8000_0000_0000_0000;
        let m = (b % 0x10_0000_0000_0000 + 0x10_0000_0000_0000) / 0x20_0000;
        let l = b / 0x10_0000_0000_0000 * 16777216 + kernels::log(m);
        return (l as i64) - 17163091968;
    }
    0
}

// 2^(n / 2^24).
fn risen(n: u64) -> f64
    ensures { result ≡ held (power_of (pos n)) }
{
    if n >= 4294967296 {
        return f64::from_bits(0x7ff0_0000_0000_0000);
    }
    let q = n / 16777216;
    let f = n % 16777216;
    if f == 0 {
        rounding::norm(false, 1, q + 1139)
    } else {
        rounding::norm(false, kernels::falling_power(16777216 - f), q + 1108)
    }
}

// 2^-(n / 2^24).
fn fallen(n: u64) -> f64
    ensures { result ≡ held (power_of (neg_ℤ (pos n))) }
{
    if n >= 5033164800 {
        return 0.0;
    }
    rounding::norm(
        false,
        kernels::falling_power(n % 16777216),
        1107 - n / 16777216,
    )
}

// The factor for the product x = L * phase: 2^(P / 2^24), for P the whole number next below x.
pub fn factor(x: f64) -> f64
    ensures { result ≡ held (factor_of x) }
{
    if x != x {
        return x;
    }
    if x < 0.0 {
        let y = -x;
        let k = whole(y);
        if k >= 5033164800 {
            return 0.0;
        }
        if (k as f64) < y {
            fallen(k + 1)
        } else {
            fallen(k)
        }
    } else {
        risen(whole(x))
    }
}

// ---- the Rust's functions. Where it is handed the difference of two values, or their ratio, worked out once a ramp, so are these; for the ratio its log.

pub fn compute_linear_ramp_sample(
    start_time: f64,
    duration: f64,
    start_value: f32,
    diff: f32,
    time: f64,
) -> f32
    ensures { result ≡ linear_at start_time duration start_value diff time }
{
    phases::phase_sum_of(diff, (time - start_time) / duration, start_value)
}

// An exponential ramp's sample, with L as an f64.
pub fn exponential_over(start_time: f64, duration: f64, start_value: f32, l: f64, time: f64) -> f32
    ensures { result ≡ exponential_over start_time duration start_value l time }
{
    let phase = (time - start_time) / duration;
    rounding::narrow(std::num::f32_to_f64_with_nan(start_value) * factor(l * phase))
}

pub fn compute_exponential_ramp_sample(
    start_time: f64,
    duration: f64,
    start_value: f32,
    log: i64,
    time: f64,
) -> f32
    ensures { result ≡ exponential_at start_time duration start_value log time }
{
    exponential_over(
        start_time,
        duration,
        start_value,
        std::num::nearest_i64_to_f64(log),
        time,
    )
}

pub fn compute_set_target_sample(
    start_time: f64,
    time_constant: f64,
    end_value: f32,
    diff: f32,
    time: f64,
) -> f32
    ensures { result ≡ target_at start_time time_constant end_value diff time }
{
    let x = (time - start_time) / time_constant;
    rounding::fused32(diff, decay(x * 1.4426950408889634), end_value)
}

pub fn compute_set_value_curve_sample(
    start_time: f64,
    duration: f64,
    values: &[f32],
    time: f64,
) -> f32
    requires { (2 ≤ length values.now) × (length values.now ≤ store_length) }
    ensures { result ≡ curve_sample values.now start_time duration time }
{
    let n = values.len() - 1;
    let since = time - start_time;
    if since >= duration {
        return values[n];
    }
    let position = (n as f64) * since / duration;
    if position >= (n as f64) {
        return values[n];
    }
    let k = whole(position) as usize;
    let from = values[k];
    // a signed number is quicker to convert
    phases::phase_sum_of(values[k + 1] - from, position - ((k as i64) as f64), from)
}

// ---- a ramp's value

// Whether a ramp of this duration has no length (02, C-18): 0 or below, which a NaN is not.
pub fn has_no_length(duration: f64) -> bool
    ensures { result ≡ has_no_length duration }
{
    duration <= 0.0
}

// A linear ramp's value at a time; one of no length has its end value at every time.
pub fn linear_value(from: Finished, value: f32, duration: f64, time: f64) -> f32
    ensures { result ≡ linear_sample from value duration time }
{
    if has_no_length(duration) {
        return value;
    }
    let diff = value - from.value;
    compute_linear_ramp_sample(from.time, duration, from.value, diff, time)
}

// The same of an exponential ramp; `log` is L of its ratio, worked out once a ramp.
pub fn exponential_value(from: Finished, value: f32, duration: f64, log: i64, time: f64) -> f32
    ensures { result ≡ ramp_sample value duration (exponential_at from.time duration from.value log) time }
{
    if has_no_length(duration) {
        return value;
    }
    compute_exponential_ramp_sample(from.time, duration, from.value, log, time)
}

// ---- the end place

// q, the time t in sample periods from the block's time on.
pub fn periods_to(infos: BlockInfos, t: f64) -> f64
    ensures { result ≡ periods_to infos t }
{
    floats::later_of(0.0, t - infos.time) / infos.dt
}

// The half-sample limit of a place; a signed number is quicker to convert.
fn limit_of(n: usize) -> f64
    requires { n ≤ 2 ^ 53 }
    ensures { result ≡ limit n }
{
    ((n as i64) as f64) + 0.5
}

// The places from `low` to `high`: one of them is the end place.
#[derive(Clone, Copy)]
struct Candidates {
    low: usize,
    high: usize,
}

// Of a number q they are its whole part and the place behind it. A NaN has no whole part: of a NaN they are all places.
fn candidates_of(q: f64, count: usize) -> Candidates
    requires { count ≤ 2 ^ 53 }
    ensures { Among q count result.low result.high × (is_number q ≡ true → result.high - result.low ≤ 1) }
{
    if q == q {
        let n = std::num::saturating_f64_to_u64(q) as usize;
        if n < count {
            return Candidates {
                low: n,
                high: n + 1,
            };
        }
        return Candidates {
            low: count,
            high: count,
        };
    }
    Candidates {
        low: 0,
        high: count,
    }
}

// The place that a search found, and how many tests of q it took: whether it is a number, then one at each middle.
#[derive(Clone, Copy)]
struct Found {
    place: usize,
    tests: usize,
}

// The search for the end place: its candidates are halved until one is left.
fn search(q: f64, count: usize) -> Found
    requires { count ≤ 2 ^ 53 }
    ensures { (result.place ≡ place_from q count 0) × FewTests q count result.tests }
{
    let among = candidates_of(q, count);
    let mut low = among.low;
    let mut high = among.high;
    let mut tests: usize = 1;
    let place = loop {
        if high <= low {
            break low;
        }
        let middle = low + (high - low) / 2;
        tests += 1;
        if q < limit_of(middle) {
            high = middle;
        } else {
            low = middle + 1;
        }
    };
    Found { place, tests }
}

// The smallest place whose half-sample limit exceeds q, or count.
pub fn end_place(q: f64, count: usize) -> usize
    requires { count ≤ 2 ^ 53 }
    ensures { result ≡ place_from q count 0 }
{
    let found = search(q, count);
    found.place
}

pub fn end_place_of(infos: BlockInfos, t: f64) -> usize
    requires { infos.count ≤ 2 ^ 53 }
    ensures { result ≡ end_place infos t }
{
    end_place(periods_to(infos, t), infos.count)
}
