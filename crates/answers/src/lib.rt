// The answers of the session language, written into a buffer from a place on; each function gives the place behind.
#![tactic(auto)]

ghost use Rattle.std.specs.Prelude.{◌≡◌, List, [], ◌∷◌, ◌++◌, ℕ, ◌+◌, ◌*◌, ◌≤◌, length, drop, replicate};
ghost use Rattle.text.specs.Digits.{decimal_of};
ghost use Rattle.text.specs.Floats.{digits_for, float_text};
ghost use Rattle.text.specs.Put.{Put};
ghost use Rattle.answers.specs.Answers.{time_text, last_text, rate_text, edition_text, kind_text, event_text, list_text, verdict_text, saved_text, fault_text, block_text, rest_text, zeros_text, bounds_text, end_text, span_text, state_text, step_text, ramp_text, target_text, curve_text, are_marks, are_zeros};

use refusals::number_of;
use rules::{AutomationRate, Bounds, Edition, Event, Finished, Refusal};
use text::hex::put_bytes;
use text::real::Real;
use text::write::{put_byte, put_count, put_real, put_word};

// A number behind a space, a colon or a comma.
fn put_real_behind<T: Real>(out: &mut [u8], at: usize, mark: u8, x: T) -> usize
    requires { at + (1 + digits_for T.format) ≤ length out.old }
    ensures put { Put out.old at (mark ∷ float_text T.format (T.value x)) out.new result }
    ensures upper_bound { result ≤ at + (1 + digits_for T.format) }
{
    let next = put_byte(out, at, mark);
    put_real(out, next, x)
}

fn put_count_behind(out: &mut [u8], at: usize, mark: u8, n: u64) -> usize
    requires { at + 21 ≤ length out.old }
    ensures put { Put out.old at (mark ∷ decimal_of n) out.new result }
    ensures upper_bound { result ≤ at + 21 }
{
    let next = put_byte(out, at, mark);
    put_count(out, next, n)
}

// A time, or `-` where there is none.
fn put_time_behind(out: &mut [u8], at: usize, mark: u8, time: Option<f64>) -> usize
    requires { at + 17 ≤ length out.old }
    ensures put { Put out.old at (mark ∷ time_text time) out.new result }
    ensures upper_bound { result ≤ at + 17 }
{
    match time {
        Some(t) => put_real_behind(out, at, mark, t),
        None => {
            let next = put_byte(out, at, mark);
            put_byte(out, next, b'-')
        }
    }
}

// Numbers, the first behind one mark and each other behind another.
pub fn put_list(out: &mut [u8], at: usize, first: u8, mark: u8, xs: &[f32]) -> usize
    requires { at + 9 * length xs.now ≤ length out.old }
    ensures { Put out.old at (list_text first mark xs.now) out.new result }
{
    let mut next = at;
    let mut before = first;
    for x in xs {
        next = put_real_behind(out, next, before, *x);
        before = mark;
    }
    next
}

pub fn put_verdict(out: &mut [u8], at: usize, verdict: Result<(), Refusal>) -> usize
    requires { at + 28 ≤ length out.old }
    ensures put { Put out.old at (verdict_text verdict) out.new result }
    ensures upper_bound { result ≤ at + 28 }
{
    match verdict {
        Ok(()) => put_word(out, at, b"ok"),
        Err(why) => {
            let next = put_word(out, at, b"refused");
            put_count_behind(out, next, b' ', number_of(why) as u64)
        }
    }
}

// `saved`, and the file's bytes.
pub fn put_saved(out: &mut [u8], at: usize, file: &[u8]) -> usize
    requires { at + (6 + 2 * length file.now) ≤ length out.old }
    ensures put { Put out.old at (saved_text file.now) out.new result }
    ensures upper_bound { result ≤ at + (6 + 2 * length file.now) }
{
    let next = put_word(out, at, b"saved ");
    put_bytes(out, next, file)
}

// `refused`, the number, and where: an offset in a file, or an event's place.
pub fn put_fault(out: &mut [u8], at: usize, number: u64, place: u64) -> usize
    requires { at + 49 ≤ length out.old }
    ensures put { Put out.old at (fault_text number place) out.new result }
    ensures upper_bound { result ≤ at + 49 }
{
    let next = put_word(out, at, b"refused");
    let next = put_count_behind(out, next, b' ', number);
    put_count_behind(out, next, b' ', place)
}

// `block`, the steps, the current value, and whether it is one-valued.
pub fn put_block(out: &mut [u8], at: usize, steps: u64, current: f32, one: bool) -> usize
    requires { at + 37 ≤ length out.old }
    ensures put { Put out.old at (block_text steps current one) out.new result }
    ensures upper_bound { result ≤ at + 37 }
{
    let next = put_word(out, at, b"block");
    let next = put_count_behind(out, next, b' ', steps);
    let next = put_real_behind(out, next, b' ', current);
    if one {
        put_word(out, next, b" 1")
    } else {
        put_word(out, next, b" 0")
    }
}

pub fn put_rest(out: &mut [u8], at: usize, clean: bool) -> usize
    requires { at + 6 ≤ length out.old }
    ensures put { Put out.old at (rest_text clean) out.new result }
    ensures upper_bound { result ≤ at + 6 }
{
    if clean {
        put_word(out, at, b" clean")
    } else {
        put_word(out, at, b" dirty")
    }
}

pub fn put_zeros(out: &mut [u8], at: usize, zeros: bool) -> usize
    requires { at + 6 ≤ length out.old }
    ensures put { Put out.old at (zeros_text zeros) out.new result }
    ensures upper_bound { result ≤ at + 6 }
{
    if zeros {
        put_word(out, at, b" zeros")
    } else {
        put_word(out, at, b" dirty")
    }
}

fn put_rate(out: &mut [u8], at: usize, rate: AutomationRate) -> usize
    requires { at + 2 ≤ length out.old }
    ensures put { Put out.old at (rate_text rate) out.new result }
    ensures upper_bound { result ≤ at + 2 }
{
    match rate {
        AutomationRate::A => put_word(out, at, b" a"),
        AutomationRate::K => put_word(out, at, b" k"),
    }
}

// What is behind the rate: nothing under the first edition.
fn put_edition(out: &mut [u8], at: usize, edition: Edition) -> usize
    requires { at + 1 ≤ length out.old }
    ensures put { Put out.old at (edition_text edition) out.new result }
    ensures upper_bound { result ≤ at + 1 }
{
    match edition {
        Edition::First => at,
        Edition::Second => put_word(out, at, b"2"),
    }
}

// The rate, and the edition where it is the second.
fn put_kind(out: &mut [u8], at: usize, rate: AutomationRate, edition: Edition) -> usize
    requires { at + 3 ≤ length out.old }
    ensures put { Put out.old at (kind_text rate edition) out.new result }
    ensures upper_bound { result ≤ at + 3 }
{
    let next = put_rate(out, at, rate);
    put_edition(out, next, edition)
}

// The last finished event's time and value, or `-`.
fn put_last(out: &mut [u8], at: usize, last: Option<Finished>) -> usize
    requires { at + 26 ≤ length out.old }
    ensures put { Put out.old at (last_text last) out.new result }
    ensures upper_bound { result ≤ at + 26 }
{
    match last {
        None => put_word(out, at, b" -"),
        Some(e) => {
            let next = put_real_behind(out, at, b' ', e.time);
            put_real_behind(out, next, b':', e.value)
        }
    }
}

fn put_bounds(out: &mut [u8], at: usize, bounds: Bounds) -> usize
    requires { at + 27 ≤ length out.old }
    ensures put { Put out.old at (bounds_text bounds) out.new result }
    ensures upper_bound { result ≤ at + 27 }
{
    let next = put_real_behind(out, at, b' ', bounds.min);
    let next = put_real_behind(out, next, b' ', bounds.default);
    put_real_behind(out, next, b' ', bounds.max)
}

// The last block's end, where there is one, behind its time.
fn put_end(out: &mut [u8], at: usize, end: Option<f64>) -> usize
    requires { at + 17 ≤ length out.old }
    ensures put { Put out.old at (end_text end) out.new result }
    ensures upper_bound { result ≤ at + 17 }
{
    match end {
        None => at,
        Some(t) => put_real_behind(out, at, b':', t),
    }
}

// The time of the last block and its end.
fn put_span(out: &mut [u8], at: usize, block: Option<f64>, end: Option<f64>) -> usize
    requires { at + 34 ≤ length out.old }
    ensures put { Put out.old at (span_text block end) out.new result }
    ensures upper_bound { result ≤ at + 34 }
{
    let next = put_time_behind(out, at, b' ', block);
    put_end(out, next, end)
}

// `state`, and what it says before the waiting events.
pub fn put_state(
    out: &mut [u8],
    at: usize,
    rate: AutomationRate,
    edition: Edition,
    bounds: Bounds,
    intrinsic: f32,
    block: Option<f64>,
    end: Option<f64>,
    last: Option<Finished>,
    count: u64,
) -> usize
    requires { at + 125 ≤ length out.old }
    ensures put { Put out.old at (state_text rate edition bounds intrinsic block end last count) out.new result }
    ensures upper_bound { result ≤ at + 125 }
{
    let next = put_word(out, at, b"state");
    let next = put_kind(out, next, rate, edition);
    let next = put_bounds(out, next, bounds);
    let next = put_real_behind(out, next, b' ', intrinsic);
    let next = put_span(out, next, block, end);
    let next = put_last(out, next, last);
    put_count_behind(out, next, b' ', count)
}

// What is behind the word of a step, a ramp, a target, a curve.
fn put_step(out: &mut [u8], at: usize, value: f32, time: f64) -> usize
    requires { at + 26 ≤ length out.old }
    ensures put { Put out.old at (step_text value time) out.new result }
    ensures upper_bound { result ≤ at + 26 }
{
    let next = put_real_behind(out, at, b':', value);
    put_real_behind(out, next, b':', time)
}

fn put_ramp(out: &mut [u8], at: usize, value: f32, time: f64, hold: Option<f64>) -> usize
    requires { at + 43 ≤ length out.old }
    ensures put { Put out.old at (ramp_text value time hold) out.new result }
    ensures upper_bound { result ≤ at + 43 }
{
    let next = put_step(out, at, value, time);
    put_time_behind(out, next, b':', hold)
}

fn put_target(
    out: &mut [u8],
    at: usize,
    value: f32,
    time: f64,
    constant: f64,
    hold: Option<f64>,
) -> usize
    requires { at + 60 ≤ length out.old }
    ensures put { Put out.old at (target_text value time constant hold) out.new result }
    ensures upper_bound { result ≤ at + 60 }
{
    let next = put_step(out, at, value, time);
    let next = put_real_behind(out, next, b':', constant);
    put_time_behind(out, next, b':', hold)
}

fn put_curve(
    out: &mut [u8],
    at: usize,
    start: f64,
    duration: f64,
    len: u64,
    hold: Option<f64>,
) -> usize
    requires { at + 72 ≤ length out.old }
    ensures put { Put out.old at (curve_text start duration hold len) out.new result }
    ensures upper_bound { result ≤ at + 72 }
{
    let next = put_real_behind(out, at, b':', start);
    let next = put_real_behind(out, next, b':', duration);
    let next = put_time_behind(out, next, b':', hold);
    put_count_behind(out, next, b':', len)
}

// A waiting event; a curve's numbers are to follow.
pub fn put_event(out: &mut [u8], at: usize, event: Event) -> usize
    requires { at + 78 ≤ length out.old }
    ensures put { Put out.old at (event_text event) out.new result }
    ensures upper_bound { result ≤ at + 78 }
{
    match event {
        Event::Step { value, time } => {
            let next = put_word(out, at, b" step");
            put_step(out, next, value, time)
        }
        Event::Linear { value, time, hold } => {
            let next = put_word(out, at, b" linear");
            put_ramp(out, next, value, time, hold)
        }
        Event::Exponential { value, time, hold } => {
            let next = put_word(out, at, b" exponential");
            put_ramp(out, next, value, time, hold)
        }
        Event::Target {
            value,
            time,
            constant,
            hold,
        } => {
            let next = put_word(out, at, b" target");
            put_target(out, next, value, time, constant, hold)
        }
        Event::Curve {
            start,
            duration,
            len,
            hold,
        } => {
            let next = put_word(out, at, b" curve");
            put_curve(out, next, start, duration, len as u64, hold)
        }
    }
}

// Whether every place of an output, past those that a block fills, still has the mark.
pub fn is_clean(output: &[f32], from: usize) -> bool
    ensures { result ≡ are_marks (drop from output.now) }
{
    output.iter().skip(from).all(|x| *x == 8388608.0)
}

// Whether every number of a store, behind the curves, is +0.
pub fn is_zeros(store: &[f32], from: usize) -> bool
    ensures { result ≡ are_zeros (drop from store.now) }
{
    store.iter().skip(from).all(|x| x.bits() == 0)
}
