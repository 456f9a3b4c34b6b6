// Runs of samples: every place of a slice takes the sample at its time, the first at `time`, each next one `dt` later.
// Up to 128 places take some passes, so that a processor need not wait in one for what it works out in another.
#![tactic(auto)]

ghost use Rattle.std.specs.Prelude.{◌≡◌, ℕ, ◌+◌, ◌-◌, ◌*◌, ◌/◌, ◌%◌, ◌^◌, ◌<◌, ◌≤◌, true, not, T, ◌⊎◌, length, ◌≢◌, from_bits, is_nan, slice_index, slice_index_or, Float};
ghost use Rattle.std.specs.Float.{nan, binary32, binary64};
ghost use Rattle.std.specs.Float.Ieee.{fits, sub, mul, lt};
ghost use Rattle.std.specs.Float.Ieee.Scale.{finite};
ghost use Rattle.rules.specs.Numbers.{store_length, plus_zero, wide, run, fused};
ghost use Rattle.rules.specs.Samples.{phase_of, curve_sample, log2e, decay};
ghost use Rattle.rules.specs.Walk.{from_start};
ghost use Rattle.phases.specs.Once.{Once, Within, Served};
ghost use Rattle.samples.specs.At.{linear_at, exponential_at, exponential_over, target_at};
ghost use Rattle.decays.specs.Cell.{Lifts, Middle};
ghost use Rattle.decays.specs.Told.{Steps, shown, Shows};
ghost use Rattle.runs.specs.After.{after};
ghost use Rattle.runs.specs.Each.{Each, Maps};
ghost use Rattle.runs.specs.Passes.{each, phase_sum};
ghost use Rattle.runs.specs.Placed.{Placed, Listed, Left, Factor, InLifts, InGrown, Grows, Celled, Ordered, OneCell, Grew};
ghost use Rattle.runs.specs.Rising.{Plain, Steady, Started, Rises, Spans, Between, Climbs, position_of, at_position};

mod line;

use line::Line;

// When the places of a run are: the first, and each next one a period later.
#[derive(Clone, Copy)]
struct Times {
    first: f64,
    period: f64,
}

// Every place takes what f makes of its time. The time after them is given back.
#[tactic(auto, unfolding(crate::specs::After::after))]
fn at_times<T: Copy, F: Fn(f64) -> T>(out: &mut [T], times: Times, f: F) -> f64
    requires { F.IsAlwaysCallable f }
    ensures each { Each (λ k y. F.post f (after times.period k times.first) y) (length out.old) out.new }
    ensures next { result ≡ after times.period (length out.old) times.first }
{
    let mut t = times.first;
    for o in out.iter_mut() {
        *o = f(t);
        t = t + times.period;
    }
    t
}

// Every place takes what f makes of the number in the same place of xs.
fn each_of<X: Copy, T: Copy, F: Fn(X) -> T>(out: &mut [T], xs: &[X], f: F)
    requires as_many { length out.old ≡ length xs.now }
    requires callable { Each (λ k x. F.pre f x) (length xs.now) xs.now }
    ensures { Maps (λ x y. F.post f x y) xs.now out.new }
{
    for (i, x) in xs.iter().enumerate() {
        out[i] = f(*x);
    }
}

// A linear ramp's run.
fn linear_run(
    out: &mut [f32],
    start_time: f64,
    duration: f64,
    start_value: f32,
    diff: f32,
    times: Times,
)
    ensures { out.new ≡ run (linear_at start_time duration start_value diff) times.period (length out.old) times.first }
{
    at_times(out, times, |t| {
        samples::compute_linear_ramp_sample(start_time, duration, start_value, diff, t)
    });
}

// By a line whose sums are exact from bx on.
fn linear_rest(out: &mut [f32], start_time: f64, duration: f64, line: Line, bx: u64, times: Times)
    requires once { Once line.a line.c bx }
    ensures { out.new ≡ run (linear_at start_time duration line.c line.a) times.period (length out.old) times.first }
{
    at_times(
        out,
        times,
        |t| phases::phase_sum_once(line.a, (t - start_time) / duration, line.c, bx),
    );
}

// A number from 0 up, and not -0.
fn plain(x: f64) -> bool
    ensures { result ≡ true → Plain x }
{
    if x == x {
        if f64::to_bits(x) < 0x7ff0_0000_0000_0000 {
            return true;
        }
    }
    false
}

// Phases at times that rise, rise.
fn is_steady(start_time: f64, duration: f64, dt: f64) -> bool
    ensures { result ≡ true → Steady start_time duration dt }
{
    if plain(start_time) {
        if plain(duration) {
            if plain(dt) {
                return duration > 0.0;
            }
        }
    }
    false
}

// The same of a run of n places; of fewer than sixteen nothing is said.
fn is_steady_for(n: usize, start_time: f64, duration: f64, dt: f64) -> bool
    ensures { result ≡ true → Steady start_time duration dt }
{
    if n < 16 {
        return false;
    }
    is_steady(start_time, duration, dt)
}

// The start lies no later than a time.
fn is_begun(start_time: f64, time: f64) -> bool
    ensures { result ≡ true → Started start_time time }
{
    if plain(time) {
        return start_time <= time;
    }
    false
}

// Phases from this time on rise.
fn rises(start_time: f64, duration: f64, times: Times) -> bool
    ensures { result ≡ true → Rises start_time duration times.first times.period }
{
    if is_steady(start_time, duration, times.period) {
        return is_begun(start_time, times.first);
    }
    false
}

// The pattern of x is bx at least, and that of y at most 1.0's.
fn spans(x: f64, y: f64, bx: u64) -> bool
    ensures { result ≡ true → Spans bx x y }
{
    if x == x {
        if y == y {
            if f64::to_bits(x) >= bx {
                if f64::to_bits(y) <= 0x3ff0_0000_0000_0000 {
                    return true;
                }
            }
        }
    }
    false
}

// Sixteen phases, and the time after them.
fn phases_from(xs: &mut [f64; 16], start_time: f64, duration: f64, times: Times) -> f64
    requires { length xs.old ≡ 16 }
    ensures { (xs.new ≡ run (phase_of start_time duration) times.period 16 times.first) × (result ≡ after times.period 16 times.first) }
{
    at_times(xs, times, |t| (t - start_time) / duration)
}

// Sixteen samples with nothing to test: they are worked out side by side.
fn sums_within(out: &mut [f32], xs: &[f64; 16], line: Line, bx: u64)
    requires once { Once line.a line.c bx × (length out.old ≡ 16) × (length xs.now ≡ 16) × ((i : ℕ) → i < 16 → Within bx (slice_index_or xs.now i nan)) }
    ensures { out.new ≡ each (phase_sum line.c line.a) xs.now }
{
    each_of(out, xs, |x| phases::phase_sum_within(line.a, x, line.c, bx));
}

fn sums_tested(out: &mut [f32], xs: &[f64; 16], line: Line, bx: u64)
    requires once { Once line.a line.c bx × (length out.old ≡ 16) × (length xs.now ≡ 16) }
    ensures { out.new ≡ each (phase_sum line.c line.a) xs.now }
{
    each_of(out, xs, |x| phases::phase_sum_once(line.a, x, line.c, bx));
}

// Sixteen samples, and the time after them. Whether phases rise is tested once a run, but for the time.
fn linear_sixteen(
    out: &mut [f32],
    steady: bool,
    start_time: f64,
    duration: f64,
    line: Line,
    bx: u64,
    times: Times,
) -> f64
    requires once { Once line.a line.c bx × (length out.old ≡ 16) × (steady ≡ true → Steady start_time duration times.period) }
    ensures { (out.new ≡ run (linear_at start_time duration line.c line.a) times.period 16 times.first) × (result ≡ after times.period 16 times.first) }
{
    let mut xs = [0.0; 16];
    let next = phases_from(&mut xs, start_time, duration, times);
    if steady {
        if is_begun(start_time, times.first) {
            if spans(xs[0], xs[15], bx) {
                sums_within(out, &xs, line, bx);
                return next;
            }
        }
    }
    sums_tested(out, &xs, line, bx);
    next
}

// Sixteen places a turn, and what is left. Such a loop stands here, in curve_turns, exponential_parts and target_parts: a generic one would take a closure over a lent part and a ghost sample, and be no plainer.
fn linear_once(out: &mut [f32], start_time: f64, duration: f64, line: Line, bx: u64, times: Times)
    requires once { Once line.a line.c bx }
    ensures { out.new ≡ run (linear_at start_time duration line.c line.a) times.period (length out.old) times.first }
{
    let steady = is_steady_for(out.len(), start_time, duration, times.period);
    let mut t = times.first;
    for turn in 0..out.len() / 16 {
        let i = turn * 16;
        t = linear_sixteen(
            &mut out[i..i + 16],
            steady,
            start_time,
            duration,
            line,
            bx,
            Times { first: t, ..times },
        );
    }
    let left = out.len() / 16 * 16;
    linear_rest(
        &mut out[left..],
        start_time,
        duration,
        line,
        bx,
        Times { first: t, ..times },
    );
}

pub fn compute_linear_ramp_samples(
    out: &mut [f32],
    start_time: f64,
    duration: f64,
    start_value: f32,
    diff: f32,
    time: f64,
    dt: f64,
)
    ensures { out.new ≡ run (linear_at start_time duration start_value diff) dt (length out.old) time }
{
    let times = Times {
        first: time,
        period: dt,
    };
    if let Some(line) = Line::between(start_value, diff) {
        if let Some(bx) = phases::once_from(line.a, line.c) {
            linear_once(out, start_time, duration, line, bx, times);
            return;
        }
    }
    linear_run(out, start_time, duration, start_value, diff, times);
}

// An exponential ramp's run, with L as an f64.
fn exponential_run(
    out: &mut [f32],
    start_time: f64,
    duration: f64,
    start_value: f32,
    l: f64,
    times: Times,
)
    ensures { out.new ≡ run (exponential_over start_time duration start_value l) times.period (length out.old) times.first }
{
    at_times(out, times, |t| {
        samples::exponential_over(start_time, duration, start_value, l, t)
    });
}

// x, or 0 where it is not below `top`; a NaN is not.
fn below(x: f64, top: f64) -> f64
    ensures { ((result ≡ x) × (lt x top ≡ true)) ⊎ (result ≡ plus_zero) }
{
    if x < top {
        return x;
    }
    0.0
}

// x, or 0 where it is not above `low`.
fn above(x: f64, low: f64) -> f64
    ensures { ((result ≡ x) × (lt low x ≡ true)) ⊎ (result ≡ plus_zero) }
{
    if x > low {
        return x;
    }
    0.0
}

// The pattern that shows the floor of x, where x is less than 60 * 2^24 - 1 from 0; else one that ends in 18 zeros (no Option: sixteen are made side by side, without a branch).
fn lifted_at(x: f64) -> u64
    ensures { (1082820 * 2 ^ 42 ≤ result) × (result < 1082940 * 2 ^ 42) × ((result % 2 ^ 18 ≡ 0) ⊎ Lifts x result) }
{
    let z = above(below(x, 1006632959.0), -1006632959.0);
    f64::to_bits(z + 25769803776.0)
}

// What f shows of each of these phases, and whether it shows something of all: a pattern that ends in 18 zeros shows nothing.
fn shown_of<F: Fn(f64) -> u64>(bs: &mut [u64], xs: &[f64], f: F) -> bool
    requires as_many { length bs.old ≡ length xs.now }
    requires callable { F.IsAlwaysCallable f }
    ensures { Maps (λ x b. F.post f x b × (result ≡ true → b % 2 ^ 18 ≢ 0)) xs.now bs.new }
{
    let mut all = true;
    for (i, x) in xs.iter().enumerate() {
        let b = f(*x);
        if b % 0x4_0000 == 0 {
            all = false;
        }
        bs[i] = b;
    }
    all
}

// The same of the phases at times.
#[tactic(auto, unfolding(crate::specs::After::after))]
fn shown_rest<F: Fn(f64) -> u64>(
    bs: &mut [u64],
    start_time: f64,
    duration: f64,
    times: Times,
    f: F,
) -> bool
    requires { F.IsAlwaysCallable f }
    ensures { Each (λ k b. F.post f (phase_of start_time duration (after times.period k times.first)) b × (result ≡ true → b % 2 ^ 18 ≢ 0)) (length bs.old) bs.new }
{
    let mut all = true;
    let mut t = times.first;
    for place in bs.iter_mut() {
        let b = f((t - start_time) / duration);
        if b % 0x4_0000 == 0 {
            all = false;
        }
        *place = b;
        t = t + times.period;
    }
    all
}

// The first pass of exponential ramps and targets: what f shows of the phase at each time, sixteen a turn, and whether it shows something of all.
fn shown_at<F: Fn(f64) -> u64 + Copy>(
    bs: &mut [u64],
    start_time: f64,
    duration: f64,
    times: Times,
    f: F,
) -> bool
    requires { F.IsAlwaysCallable f }
    ensures { result ≡ true → Each (λ k b. F.post f (phase_of start_time duration (after times.period k times.first)) b × (b % 2 ^ 18 ≢ 0)) (length bs.old) bs.new }
{
    let mut all = true;
    let mut t = times.first;
    for turn in 0..bs.len() / 16 {
        let i = turn * 16;
        let mut xs = [0.0; 16];
        t = phases_from(&mut xs, start_time, duration, Times { first: t, ..times });
        if !shown_of(&mut bs[i..i + 16], &xs, f) {
            all = false;
        }
    }
    let i = bs.len() / 16 * 16;
    if shown_rest(
        &mut bs[i..],
        start_time,
        duration,
        Times { first: t, ..times },
        f,
    ) {
        return all;
    }
    false
}

// The second pass: the estimate of each factor, and whether each tells.
fn growths_by(ns: &mut [u64], bs: &[u64]) -> bool
    requires as_many { length ns.old ≡ length bs.now }
    requires by_index { Each (λ k b. InLifts b) (length bs.now) bs.now }
    ensures { Maps (λ b n. InGrown n × (result ≡ true → Grows b n)) bs.now ns.new }
{
    let mut all = true;
    for (i, b) in bs.iter().enumerate() {
        if *b / 0x4_0000 % 16777216 == 0 {
            all = false;
        }
        ns[i] = decays::grown_of(*b);
    }
    all
}

// The third pass: the products by the estimates and by what lies 20 * 2^21 below, and what the higher ones round to.
fn cells_of(out: &mut [f32], hs: &mut [u64], ls: &mut [u64], ns: &[u64], from: f64)
    requires as_many { (length out.old ≡ length ns.now) × (length hs.old ≡ length ns.now) × (length ls.old ≡ length ns.now) × Middle from }
    requires by_index { Each (λ k n. InGrown n) (length ns.now) ns.now }
    ensures { (k : ℕ) → k < length ns.now → Celled «from» (slice_index ns.now k) (slice_index hs.new k) (slice_index ls.new k) (slice_index_or out.new k nan) }
{
    for (i, n) in ns.iter().enumerate() {
        let high = decays::product_of(from, *n);
        hs[i] = high;
        ls[i] = decays::product_of(from, *n - 0x280_0000);
        out[i] = decays::cut_of(from, *n, high);
    }
}

// Those between whose two products a midpoint of two `f32` may lie go into `slow`; how many these are is given back.
fn unsure_of(slow: &mut [usize], hs: &[u64], ls: &[u64]) -> usize
    requires as_many { (length slow.old ≡ length hs.now) × (length ls.now ≡ length hs.now) }
    requires by_index { (k : ℕ) → k < length hs.now → Ordered (slice_index hs.now k) (slice_index ls.now k) }
    ensures { (result ≤ length hs.now) × ((j : ℕ) → j < result → slice_index slow.new j < length hs.now) × ((k : ℕ) → k < length hs.now → OneCell (slice_index hs.now k) (slice_index ls.now k) ⊎ Listed slow.new 0 result k) }
{
    let mut count = 0usize;
    for (i, high) in hs.iter().enumerate() {
        slow[count] = i;
        if (*high + 0x1000_0000) % 0x2000_0000 <= *high - ls[i] {
            count += 1;
        }
    }
    count
}

// A late pass: what stands in the places of `slow` is made by f, one behind the other, so that a processor works at several.
fn settle<T: Copy, F: Fn(u64) -> T>(out: &mut [T], slow: &[usize], bs: &[u64], f: F)
    requires as_many { length bs.now ≡ length out.old }
    requires listed { (j : ℕ) → j < length slow.now → slice_index slow.now j < length out.old }
    requires callable { Each (λ k b. F.pre f b) (length bs.now) bs.now }
    ensures { Each (λ k y. F.post f (slice_index bs.now k) y ⊎ Left slow.now (length slow.now) out.old k y) (length out.old) out.new }
{
    for i in slow.iter() {
        out[*i] = f(bs[*i]);
    }
}

// Whether a start value's size is from 2^-60 to 2^60.
fn is_middle(from: f64) -> bool
    requires { T (finite from) }
    ensures { result ≡ true → Middle «from» }
{
    let m = f64::to_bits(from) % 0x8000_0000_0000_0000;
    if m >= 0x3c30_0000_0000_0000 {
        if m <= 0x43b0_0000_0000_0000 {
            return true;
        }
    }
    false
}

// An exponential ramp's run by these passes, where all is seen.
fn exponential_told(
    out: &mut [f32],
    start_time: f64,
    duration: f64,
    from: f64,
    l: f64,
    times: Times,
) -> bool
    requires { (length out.old ≤ 128) × T (finite from) }
    ensures { result ≡ true → out.new ≡ run (exponential_over start_time duration «from» l) times.period (length out.old) times.first }
{
    if !is_middle(from) {
        return false;
    }
    // an array a pass, on the stack (no heap); one of structs would be lent whole to passes that read one field and write another
    let n = out.len();
    let mut bs = [0u64; 128];
    let bs = &mut bs[..n];
    if !shown_at(bs, start_time, duration, times, |x| lifted_at(l * x)) {
        return false;
    }
    let mut ns = [0u64; 128];
    let ns = &mut ns[..n];
    if !growths_by(ns, bs) {
        return false;
    }
    let mut hs = [0u64; 128];
    let hs = &mut hs[..n];
    let mut ls = [0u64; 128];
    let ls = &mut ls[..n];
    cells_of(out, hs, ls, ns, from);
    let mut slow = [0usize; 128];
    let slow = &mut slow[..n];
    let count = unsure_of(slow, hs, ls);
    settle(out, &slow[..count], bs, |b| decays::grown_exact(from, b));
    true
}

// Where not all is seen: each sample by itself.
fn exponential_each(
    out: &mut [f32],
    start_time: f64,
    duration: f64,
    from: f64,
    l: f64,
    times: Times,
)
    requires { T (finite from) }
    ensures { out.new ≡ run (exponential_over start_time duration «from» l) times.period (length out.old) times.first }
{
    at_times(out, times, |t| {
        decays::grown_at(from, l * ((t - start_time) / duration))
    });
}

// By these passes, which are not worth their arrays for a few samples, or else each sample by itself.
fn exponential_rest(
    out: &mut [f32],
    start_time: f64,
    duration: f64,
    from: f64,
    l: f64,
    times: Times,
)
    requires { (length out.old ≤ 128) × T (finite from) }
    ensures { out.new ≡ run (exponential_over start_time duration «from» l) times.period (length out.old) times.first }
{
    if out.len() < 16 {
        exponential_each(out, start_time, duration, from, l, times);
        return;
    }
    if exponential_told(out, start_time, duration, from, l, times) {
        return;
    }
    exponential_each(out, start_time, duration, from, l, times);
}

// A sample at the start itself, whose x is 0 and shows nothing, is taken alone. A function of its own: put into the walk's loop it would slow down every head.
#[inline(never)]
fn exponential_finite(
    out: &mut [f32],
    start_time: f64,
    duration: f64,
    from: f64,
    l: f64,
    times: Times,
)
    requires { (length out.old ≤ 128) × T (finite from) }
    ensures { out.new ≡ run (exponential_over start_time duration «from» l) times.period (length out.old) times.first }
{
    if out.len() > 0 {
        if times.first == start_time {
            out[0] = decays::grown_at(from, l * ((times.first - start_time) / duration));
            let next = times.first + times.period;
            exponential_rest(
                &mut out[1..],
                start_time,
                duration,
                from,
                l,
                Times {
                    first: next,
                    ..times
                },
            );
            return;
        }
    }
    exponential_rest(out, start_time, duration, from, l, times);
}

// The time 128 places on.
#[tactic(auto, unfolding(crate::specs::After::after))]
fn part_later(times: Times) -> f64
    ensures { result ≡ after times.period 128 times.first }
{
    let mut t = times.first;
    for _ in 0..128u64 {
        t = t + times.period;
    }
    t
}

// By parts of up to 128.
fn exponential_parts(out: &mut [f32], start: f64, duration: f64, from: f64, l: f64, times: Times)
    requires { T (finite from) }
    ensures { out.new ≡ run (exponential_over start duration «from» l) times.period (length out.old) times.first }
{
    let before = out.len().saturating_sub(1) / 128;
    let mut t = times.first;
    for part in 0..before {
        let i = part * 128;
        let next = part_later(Times { first: t, ..times });
        exponential_finite(
            &mut out[i..i + 128],
            start,
            duration,
            from,
            l,
            Times { first: t, ..times },
        );
        t = next;
    }
    let last = before * 128;
    exponential_finite(
        &mut out[last..],
        start,
        duration,
        from,
        l,
        Times { first: t, ..times },
    );
}

pub fn compute_exponential_ramp_samples(
    out: &mut [f32],
    start_time: f64,
    duration: f64,
    start_value: f32,
    log: i64,
    time: f64,
    dt: f64,
)
    ensures { out.new ≡ run (exponential_at start_time duration start_value log) dt (length out.old) time }
{
    let times = Times {
        first: time,
        period: dt,
    };
    let l = std::num::nearest_i64_to_f64(log);
    if floats::is_finite(start_value) {
        let from = start_value as f64;
        exponential_parts(out, start_time, duration, from, l, times);
        return;
    }
    exponential_run(out, start_time, duration, start_value, l, times);
}

// A target's sample, or the intrinsic value before the start.
fn target_from(
    start_time: f64,
    time_constant: f64,
    end_value: f32,
    diff: f32,
    intrinsic: f32,
    time: f64,
) -> f32
    ensures { result ≡ from_start start_time intrinsic (target_at start_time time_constant end_value diff) time }
{
    if time < start_time {
        intrinsic
    } else {
        samples::compute_set_target_sample(start_time, time_constant, end_value, diff, time)
    }
}

// A target's run from or to what may be infinite.
fn target_run(
    out: &mut [f32],
    start_time: f64,
    time_constant: f64,
    end_value: f32,
    diff: f32,
    intrinsic: f32,
    times: Times,
)
    ensures { out.new ≡ run (from_start start_time intrinsic (target_at start_time time_constant end_value diff)) times.period (length out.old) times.first }
{
    at_times(out, times, |t| {
        target_from(start_time, time_constant, end_value, diff, intrinsic, t)
    });
}

// How many times factors may halve: where sums are exact from the exponent's field b on, as often as that allows, if the phase x lies before (1.5 is more than log2(e)).
fn few_from(b: u64, x: f64) -> u64
    ensures { result ≤ 124 }
{
    if b >= 898 {
        if b <= 1022 {
            if samples::whole(x * 1.5) <= 1022 - b {
                return 1022 - b;
            }
        }
    }
    124
}

// The pattern that shows the steps of a target's factor at the phase x, where they are fewer than `top`; else one that ends in 18 zeros.
fn placed(x: f64, few: u64, top: f64) -> u64
    requires { (few ≤ 124) × (top ≡ wide ((few + 1) * 2 ^ 24)) }
    ensures { (result % 2 ^ 18 ≡ 0) ⊎ Placed few x result }
{
    let y = x * 1.4426950408889634;
    let z = above(below(y * 16777216.0, top), 0.0);
    f64::to_bits(z + 25769803776.0)
}

// The second pass of a target: what shows each factor but for those in `slow`; how many these are is given back. Nothing is chosen by a branch, which a processor would have to foresee.
fn tell(us: &mut [u64], slow: &mut [usize], bs: &[u64]) -> usize
    requires as_many { (length us.old ≡ length bs.now) × (length slow.old ≡ length bs.now) }
    requires by_index { Each (λ k b. Steps b) (length bs.now) bs.now }
    ensures { (result ≤ length bs.now) × ((j : ℕ) → j < result → slice_index slow.new j < length bs.now) × ((k : ℕ) → k < length bs.now → Shows (slice_index bs.now k) (slice_index us.new k) ⊎ Listed slow.new 0 result k) }
{
    let mut count = 0usize;
    for (i, b) in bs.iter().enumerate() {
        let u = decays::near_of(*b);
        slow[count] = i;
        if u % 256 > 234 {
            count += 1;
        }
        us[i] = u;
    }
    count
}

// The last pass of a target: what f makes of each factor that is shown.
fn faded<F: Fn(f64) -> f32>(out: &mut [f32], us: &[u64], bs: &[u64], f: F)
    requires as_many { (length us.now ≡ length out.old) × (length bs.now ≡ length out.old) }
    requires factors { (k : ℕ) → k < length out.old → Factor (slice_index bs.now k) (slice_index us.now k) × F.pre f (from_bits binary64 (shown (slice_index bs.now k) (slice_index us.now k))) }
    ensures { Each (λ k y. F.post f (from_bits binary64 (shown (slice_index bs.now k) (slice_index us.now k))) y) (length out.old) out.new }
{
    for i in 0..out.len() {
        out[i] = f(f64::from_bits(decays::shown_by(bs[i], us[i])));
    }
}

// As many steps as halve a factor `few` times and once more.
fn steps_of(few: u64) -> f64
    requires { few ≤ 124 }
    ensures { result ≡ wide ((few + 1) * 2 ^ 24) }
{
    (((few + 1) * 16777216) as i64) as f64
}

// A target's samples by these passes, where all steps are seen and factors halve `few` times at most; `exact` says that sums are exact down to there.
fn target_shown(
    out: &mut [f32],
    start: f64,
    constant: f64,
    line: Line,
    few: u64,
    exact: bool,
    times: Times,
) -> bool
    requires out_len_bound { (length out.old ≤ 128) × (few ≤ 124) × (exact ≡ true → Once line.a line.c ((1022 - few) * 2 ^ 52)) }
    ensures { result ≡ true → out.new ≡ run (target_at start constant line.c line.a) times.period (length out.old) times.first }
{
    let n = out.len();
    let top = steps_of(few);
    let mut bs = [0u64; 128];
    let bs = &mut bs[..n];
    if !shown_at(bs, start, constant, times, |x| placed(x, few, top)) {
        return false;
    }
    let mut us = [0u64; 128];
    let us = &mut us[..n];
    let mut slow = [0usize; 128];
    let slow = &mut slow[..n];
    let count = tell(us, slow, bs);
    settle(us, &slow[..count], bs, |b| decays::exact_of(b));
    if exact {
        // sums of which nothing is left to test
        faded(out, us, bs, |x| phases::sum_once(line.a, x, line.c));
        return true;
    }
    faded(out, us, bs, |x| rounding::fused_wide(line.a, x, line.c));
    true
}

// The same from behind the start on, for sixteen samples at least.
fn target_told(out: &mut [f32], start_time: f64, constant: f64, line: Line, times: Times) -> bool
    requires out_len_bound { (length out.old ≤ 128) }
    ensures { result ≡ true → (v : Float) → out.new ≡ run (from_start start_time v (target_at start_time constant line.c line.a)) times.period (length out.old) times.first }
{
    let b = phases::once_from(line.a, line.c).unwrap_or(0) / 0x10_0000_0000_0000;
    if is_steady_for(out.len(), start_time, constant, times.period) {
        if is_begun(start_time, times.first) {
            if start_time < times.first {
                let few = few_from(
                    b,
                    (times.first - start_time + times.period * 128.0) / constant,
                );
                let exact = few + b == 1022;
                return target_shown(out, start_time, constant, line, few, exact, times);
            }
        }
    }
    false
}

// A target's value at a time by the table, or the intrinsic value before the start.
fn target_by(start_time: f64, constant: f64, line: Line, intrinsic: f32, time: f64) -> f32
    ensures { result ≡ from_start start_time intrinsic (target_at start_time constant line.c line.a) time }
{
    if time < start_time {
        return intrinsic;
    }
    let x = (time - start_time) / constant;
    let f = decays::decay_at(x * 1.4426950408889634);
    rounding::fused_wide(line.a, f, line.c)
}

// Where not all steps are seen: each sample by itself.
fn target_each(
    out: &mut [f32],
    start_time: f64,
    constant: f64,
    line: Line,
    intrinsic: f32,
    times: Times,
)
    ensures { out.new ≡ run (from_start start_time intrinsic (target_at start_time constant line.c line.a)) times.period (length out.old) times.first }
{
    at_times(out, times, |t| {
        target_by(start_time, constant, line, intrinsic, t)
    });
}

// By the passes, or else each sample by itself.
fn target_rest(
    out: &mut [f32],
    start_time: f64,
    constant: f64,
    line: Line,
    intrinsic: f32,
    times: Times,
)
    requires out_len_bound { (length out.old ≤ 128) }
    ensures { out.new ≡ run (from_start start_time intrinsic (target_at start_time constant line.c line.a)) times.period (length out.old) times.first }
{
    if target_told(out, start_time, constant, line, times) {
        return;
    }
    target_each(out, start_time, constant, line, intrinsic, times);
}

// A target's run of up to 128 places. A sample at the start itself, which shows no steps, is taken alone.
#[inline(never)]
fn target_finite(
    out: &mut [f32],
    start_time: f64,
    constant: f64,
    line: Line,
    intrinsic: f32,
    times: Times,
)
    requires out_len_bound { length out.old ≤ 128 }
    ensures { out.new ≡ run (from_start start_time intrinsic (target_at start_time constant line.c line.a)) times.period (length out.old) times.first }
{
    if out.len() > 0 {
        if times.first == start_time {
            out[0] = target_by(start_time, constant, line, intrinsic, times.first);
            let next = times.first + times.period;
            target_rest(
                &mut out[1..],
                start_time,
                constant,
                line,
                intrinsic,
                Times {
                    first: next,
                    ..times
                },
            );
            return;
        }
    }
    target_rest(out, start_time, constant, line, intrinsic, times);
}

// By parts, as those of an exponential ramp.
fn target_parts(
    out: &mut [f32],
    start: f64,
    constant: f64,
    line: Line,
    intrinsic: f32,
    times: Times,
)
    ensures { out.new ≡ run (from_start start intrinsic (target_at start constant line.c line.a)) times.period (length out.old) times.first }
{
    let before = out.len().saturating_sub(1) / 128;
    let mut t = times.first;
    for part in 0..before {
        let i = part * 128;
        let next = part_later(Times { first: t, ..times });
        target_finite(
            &mut out[i..i + 128],
            start,
            constant,
            line,
            intrinsic,
            Times { first: t, ..times },
        );
        t = next;
    }
    let last = before * 128;
    target_finite(
        &mut out[last..],
        start,
        constant,
        line,
        intrinsic,
        Times { first: t, ..times },
    );
}

// A target's run, and its value at `end`.
pub fn compute_set_target_samples(
    out: &mut [f32],
    start: f64,
    constant: f64,
    target: f32,
    diff: f32,
    intrinsic: f32,
    time: f64,
    dt: f64,
    end: f64,
) -> f32
    ensures { (out.new ≡ run (from_start start intrinsic (target_at start constant target diff)) dt (length out.old) time) × (result ≡ from_start start intrinsic (target_at start constant target diff) end) }
{
    let times = Times {
        first: time,
        period: dt,
    };
    if let Some(line) = Line::between(target, diff) {
        target_parts(out, start, constant, line, intrinsic, times);
        return target_by(start, constant, line, intrinsic, end);
    }
    target_run(out, start, constant, target, diff, intrinsic, times);
    target_from(start, constant, target, diff, intrinsic, end)
}

// A curve's sample, or the intrinsic value before the start.
fn curve_from(start_time: f64, duration: f64, values: &[f32], intrinsic: f32, time: f64) -> f32
    requires { (2 ≤ length values.now) × (length values.now ≤ store_length) }
    ensures { result ≡ from_start start_time intrinsic (curve_sample values.now start_time duration) time }
{
    if time < start_time {
        intrinsic
    } else {
        samples::compute_set_value_curve_sample(start_time, duration, values, time)
    }
}

// A curve's run, each sample by itself.
fn curve_run(
    out: &mut [f32],
    start_time: f64,
    duration: f64,
    values: &[f32],
    intrinsic: f32,
    times: Times,
)
    requires { (2 ≤ length values.now) × (length values.now ≤ store_length) }
    ensures { out.new ≡ run (from_start start_time intrinsic (curve_sample values.now start_time duration)) times.period (length out.old) times.first }
{
    at_times(out, times, |t| {
        curve_from(start_time, duration, values, intrinsic, t)
    });
}

// x is a number from 0 up, and below y.
fn short_of(x: f64, y: f64) -> bool
    ensures { result ≡ true → Plain x × (lt x y ≡ true) }
{
    if plain(x) {
        if x < y {
            return true;
        }
    }
    false
}

// Sixteen positions in a curve whose last number has the place n, and the time after them.
fn positions_from(ps: &mut [f64; 16], n: f64, start_time: f64, duration: f64, times: Times) -> f64
    requires { length ps.old ≡ 16 }
    ensures { (ps.new ≡ run (position_of n start_time duration) times.period 16 times.first) × (result ≡ after times.period 16 times.first) }
{
    at_times(ps, times, |t| n * (t - start_time) / duration)
}

// What the positions have beyond k.
fn fractions(xs: &mut [f64; 16], ps: &[f64; 16], k: f64)
    requires { (length xs.old ≡ 16) × (length ps.now ≡ 16) }
    ensures { xs.new ≡ each (λ p. sub binary64 p k) ps.now }
{
    each_of(xs, ps, |p| p - k);
}

// Sixteen sums side by side, and whether all of them were seen.
fn sums_seen(out: &mut [f32], xs: &[f64; 16], line: Line) -> bool
    requires out_len { (length out.old ≡ 16) × (length xs.now ≡ 16) × ((i : ℕ) → i < 16 → Within (898 * 2 ^ 52) (slice_index_or xs.now i nan)) }
    ensures { result ≡ true → out.new ≡ each (phase_sum line.c line.a) xs.now }
{
    let mut seen = true;
    for (i, x) in xs.iter().enumerate() {
        let n = phases::phase_sum_seen(line.a, *x, line.c);
        if n == 0 {
            seen = false;
        }
        out[i] = f64::from_bits(n) as f32;
    }
    seen
}

// The same with nothing to test, where all sums are exact.
fn sums_between(out: &mut [f32], xs: &[f64; 16], line: Line) -> bool
    requires out_len { (length out.old ≡ 16) × (length xs.now ≡ 16) × Between xs.now × Spans (898 * 2 ^ 52) (slice_index_or xs.now 0 nan) (slice_index_or xs.now 15 nan) }
    ensures { result ≡ true → out.new ≡ each (phase_sum line.c line.a) xs.now }
{
    if let Some(bx) = phases::once_from(line.a, line.c) {
        if spans(xs[0], xs[15], bx) {
            sums_within(out, xs, line, bx);
            return true;
        }
    }
    sums_seen(out, xs, line)
}

// Sixteen samples between two numbers of a curve.
fn curve_part(out: &mut [f32], xs: &[f64; 16], from: f32, diff: f32) -> bool
    requires { (length out.old ≡ 16) × (length xs.now ≡ 16) × Between xs.now × Spans (898 * 2 ^ 52) (slice_index_or xs.now 0 nan) (slice_index_or xs.now 15 nan) }
    ensures { result ≡ true → out.new ≡ each (phase_sum «from» diff) xs.now }
{
    match Line::between(from, diff) {
        Some(line) => sums_between(out, xs, line),
        None => false,
    }
}

// The same by their positions, where all lie between the same two.
fn curve_within(out: &mut [f32], ps: &[f64; 16], values: &[f32]) -> bool
    requires { (length out.old ≡ 16) × (length ps.now ≡ 16) × (2 ≤ length values.now) × (length values.now ≤ store_length) × Climbs (length values.now - 1) ps.now }
    ensures { result ≡ true → out.new ≡ each (at_position values.now) ps.now }
{
    let k = samples::whole(ps[0]) as usize;
    let mut xs = [0.0; 16];
    fractions(&mut xs, ps, (k as i64) as f64);
    if spans(xs[0], xs[15], 0x3820_0000_0000_0000) {
        if f64::to_bits(xs[15]) < 0x3ff0_0000_0000_0000 {
            let from = values[k];
            return curve_part(out, &xs, from, values[k + 1] - from);
        }
    }
    false
}

// Sixteen samples of a curve by their positions, if they rise and end before the curve does.
fn curve_tried(
    out: &mut [f32],
    ps: &[f64; 16],
    values: &[f32],
    n: f64,
    next: f64,
    start_time: f64,
    duration: f64,
    times: Times,
) -> bool
    requires out_len { (length out.old ≡ 16) × (2 ≤ length values.now) × (length values.now ≤ store_length) × (n ≡ wide (length values.now - 1)) × (next ≡ after times.period 16 times.first) }
    requires ps_value { ps.now ≡ run (position_of n start_time duration) times.period 16 times.first }
    ensures { result ≡ true → (v : Float) → out.new ≡ run (from_start start_time v (curve_sample values.now start_time duration)) times.period 16 times.first }
{
    if rises(start_time, duration, times) {
        if short_of(next - start_time, duration) {
            if short_of(ps[15], n) {
                return curve_within(out, ps, values);
            }
        }
    }
    false
}

// Sixteen samples of a curve, and the time after them.
fn curve_sixteen(
    out: &mut [f32],
    start_time: f64,
    duration: f64,
    values: &[f32],
    intrinsic: f32,
    times: Times,
) -> f64
    requires { (length out.old ≡ 16) × (2 ≤ length values.now) × (length values.now ≤ store_length) }
    ensures { (out.new ≡ run (from_start start_time intrinsic (curve_sample values.now start_time duration)) times.period 16 times.first) × (result ≡ after times.period 16 times.first) }
{
    let n = ((values.len() - 1) as i64) as f64;
    let mut ps = [0.0; 16];
    let next = positions_from(&mut ps, n, start_time, duration, times);
    if curve_tried(out, &ps, values, n, next, start_time, duration, times) {
        return next;
    }
    curve_run(out, start_time, duration, values, intrinsic, times);
    next
}

// A curve's run, sixteen samples a turn.
fn curve_turns(
    out: &mut [f32],
    start_time: f64,
    duration: f64,
    values: &[f32],
    intrinsic: f32,
    times: Times,
)
    requires { (2 ≤ length values.now) × (length values.now ≤ store_length) }
    ensures { out.new ≡ run (from_start start_time intrinsic (curve_sample values.now start_time duration)) times.period (length out.old) times.first }
{
    let mut t = times.first;
    for turn in 0..out.len() / 16 {
        let i = turn * 16;
        t = curve_sixteen(
            &mut out[i..i + 16],
            start_time,
            duration,
            values,
            intrinsic,
            Times { first: t, ..times },
        );
    }
    let left = out.len() / 16 * 16;
    curve_run(
        &mut out[left..],
        start_time,
        duration,
        values,
        intrinsic,
        Times { first: t, ..times },
    );
}

pub fn compute_set_value_curve_samples(
    out: &mut [f32],
    start_time: f64,
    duration: f64,
    values: &[f32],
    intrinsic: f32,
    time: f64,
    dt: f64,
)
    requires { (2 ≤ length values.now) × (length values.now ≤ store_length) }
    ensures { out.new ≡ run (from_start start_time intrinsic (curve_sample values.now start_time duration)) dt (length out.old) time }
{
    let times = Times {
        first: time,
        period: dt,
    };
    // sixteen samples seldom lie between the same two numbers where there are fewer than twenty
    if (values.len() as f64) * (dt * 20.0) < duration {
        curve_turns(out, start_time, duration, values, intrinsic, times);
        return;
    }
    curve_run(out, start_time, duration, values, intrinsic, times);
}
