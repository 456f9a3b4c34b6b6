// The calls of a session, made on one parameter and its store, and their answers.
#![tactic(auto)]

ghost use Rattle.std.specs.Prelude.{◌≡◌, true, List, ℕ, ◌+◌, ◌*◌, ◌≤◌, ◌<◌, length, take, drop, replicate, Float};
ghost use Rattle.rules.specs.Numbers.{plus_zero};
ghost use Rattle.rules.specs.Block.{set, step, linear, exponential, target, curve, cancel, hold};
ghost use Rattle.text.specs.Put.{Put};
ghost use Rattle.block.specs.Asked.{asked as asked_block};
ghost use Rattle.param.specs.Param.{SoundParam, param_of};
ghost use Rattle.param.specs.Processed.{Processes};
ghost use Rattle.desk.specs.Desk.{SoundDesk, InRange, is_scheduling, desk_of, after_command, after_block, Told, Spoken, unread, making, asked, lending, poking, block_line, playing, marks, stating, answer_of, with_newline, line_turn, width_at, waiting_at, queue_text, unmade_desk};

use answers::{
    is_clean, is_zeros, put_block, put_event, put_list, put_rest, put_state, put_verdict, put_zeros,
};
use calls::{Call, Renderer, read_call};
use costs::Totals;
use files::{load, save};
use param::{AudioParam, Outcome, Processed};
use rules::{AutomationRate, Bounds};
use tally::{after_block, after_command, none};
use text::write::{put_byte, put_word};
use timeline::length_of;

mod files; // files.rt: a schedule file written and read

// The parameter at hand, how many numbers of the store are lent to its calls, and what these have cost since it was made.
#[derive(Clone, Copy)]
pub struct Desk {
    pub param: AudioParam,
    pub lent: usize,
    pub totals: Totals,
}

// The desk after a call, and the place behind its answer.
#[derive(Clone, Copy)]
pub struct Answered {
    pub desk: Desk,
    pub next: usize,
}

// Before the first `make`: what refusal 1 returns.
pub fn at_first() -> Desk
    ensures { (result ≡ unmade_desk) × SoundDesk result }
{
    let no_range = Bounds {
        min: 1.0,
        default: 0.0,
        max: 0.0,
    };
    let r = AudioParam::new(no_range, AutomationRate::A);
    Desk {
        param: r.param,
        lent: 4096,
        totals: none(),
    }
}

// An answer in a word, by which nothing changes.
fn word(desk: Desk, out: &mut [u8], at: usize, word: &[u8]) -> Answered
    requires { (length word.now ≤ 7) × (at + 42000 ≤ length out.old) }
    ensures { (result.desk ≡ desk) × Put out.old at word.now out.new result.next }
{
    let next = put_word(out, at, word);
    Answered { desk, next }
}

// What a call says, and the parameter after it. Inlined, as the next, else each call's answer is copied once more by either.
#[inline(always)]
fn told(r: Outcome, lent: usize, totals: Totals, out: &mut [u8], at: usize) -> Answered
    requires { at + 42000 ≤ length out.old }
    ensures { Told r lent totals out.old at result out.new }
{
    let next = put_verdict(out, at, r.verdict);
    let desk = Desk {
        param: r.param,
        lent,
        totals,
    };
    Answered { desk, next }
}

// The same of a call that schedules or cancels, with its cost.
#[inline(always)]
fn called(desk: Desk, r: Outcome, out: &mut [u8], at: usize) -> Answered
    requires { SoundParam desk.param × SoundParam r.param × (at + 42000 ≤ length out.old) }
    ensures { Told r desk.lent (after_command desk r.param) out.old at result out.new }
{
    let totals = after_command(desk.totals, desk.param.len(), r.param.len());
    told(r, desk.lent, totals, out, at)
}

// All numbers of a store +0.
fn clear(store: &mut [f32])
    ensures { store.new ≡ replicate (length store.old) plus_zero }
{
    store.fill(0.0);
}

fn make(
    bounds: Bounds,
    rate: AutomationRate,
    edition: u64,
    store: &mut [f32],
    out: &mut [u8],
    at: usize,
) -> Answered
    requires { (length store.old ≡ 8192) × (at + 42000 ≤ length out.old) }
    ensures { (d : Desk) → Spoken 41999 (making bounds rate edition) d store.old out.old at result store.new out.new }
{
    clear(store);
    let r = AudioParam::with_edition(bounds, rate, edition);
    told(r, 4096, none(), out, at)
}

fn set(desk: Desk, value: f32, out: &mut [u8], at: usize) -> Answered
    requires { SoundDesk desk × (at + 42000 ≤ length out.old) }
    ensures { (s : List Float) → Spoken 41999 (asked (set value)) desk s out.old at result s out.new }
{
    called(desk, desk.param.set_value(value), out, at)
}

fn step(desk: Desk, value: f32, time: f64, out: &mut [u8], at: usize) -> Answered
    requires { SoundDesk desk × (at + 42000 ≤ length out.old) }
    ensures { (s : List Float) → Spoken 41999 (asked (step value time)) desk s out.old at result s out.new }
{
    called(desk, desk.param.set_value_at_time(value, time), out, at)
}

fn linear(desk: Desk, value: f32, time: f64, out: &mut [u8], at: usize) -> Answered
    requires { SoundDesk desk × (at + 42000 ≤ length out.old) }
    ensures { (s : List Float) → Spoken 41999 (asked (linear value time)) desk s out.old at result s out.new }
{
    called(
        desk,
        desk.param.linear_ramp_to_value_at_time(value, time),
        out,
        at,
    )
}

fn exponential(desk: Desk, value: f32, time: f64, out: &mut [u8], at: usize) -> Answered
    requires { SoundDesk desk × (at + 42000 ≤ length out.old) }
    ensures { (s : List Float) → Spoken 41999 (asked (exponential value time)) desk s out.old at result s out.new }
{
    called(
        desk,
        desk.param.exponential_ramp_to_value_at_time(value, time),
        out,
        at,
    )
}

fn target(desk: Desk, value: f32, time: f64, constant: f64, out: &mut [u8], at: usize) -> Answered
    requires { SoundDesk desk × (at + 42000 ≤ length out.old) }
    ensures { (s : List Float) → Spoken 41999 (asked (target value time constant)) desk s out.old at result s out.new }
{
    called(
        desk,
        desk.param.set_target_at_time(value, time, constant),
        out,
        at,
    )
}

fn curve(
    desk: Desk,
    start: f64,
    duration: f64,
    values: &[f32],
    store: &mut [f32],
    out: &mut [u8],
    at: usize,
) -> Answered
    requires { SoundDesk desk × (length store.old ≡ 8192) × (at + 42000 ≤ length out.old) }
    ensures { Spoken 41999 (asked (curve start duration values.now)) desk store.old out.old at result store.new out.new }
{
    let r = desk
        .param
        .set_value_curve_at_time(values, start, duration, &mut store[..desk.lent]);
    called(desk, r, out, at)
}

fn cancel(desk: Desk, time: f64, store: &mut [f32], out: &mut [u8], at: usize) -> Answered
    requires { SoundDesk desk × (length store.old ≡ 8192) × (at + 42000 ≤ length out.old) }
    ensures { Spoken 41999 (asked (cancel time)) desk store.old out.old at result store.new out.new }
{
    let r = desk
        .param
        .cancel_scheduled_values(time, &mut store[..desk.lent]);
    called(desk, r, out, at)
}

fn hold(desk: Desk, time: f64, store: &mut [f32], out: &mut [u8], at: usize) -> Answered
    requires { SoundDesk desk × (length store.old ≡ 8192) × (at + 42000 ≤ length out.old) }
    ensures { Spoken 41999 (asked (hold time)) desk store.old out.old at result store.new out.new }
{
    let r = desk
        .param
        .cancel_and_hold_at_time(time, &mut store[..desk.lent]);
    called(desk, r, out, at)
}

fn lend(desk: Desk, len: usize, out: &mut [u8], at: usize) -> Answered
    requires { SoundDesk desk × (len ≤ 8192) × (at + 42000 ≤ length out.old) }
    ensures { (s : List Float) → Spoken 41999 (lending len) desk s out.old at result s out.new }
{
    word(Desk { lent: len, ..desk }, out, at, b"ok")
}

fn poke(
    desk: Desk,
    place: usize,
    value: f32,
    store: &mut [f32],
    out: &mut [u8],
    at: usize,
) -> Answered
    requires { SoundDesk desk × (place < length store.old) × (at + 42000 ≤ length out.old) }
    ensures { Spoken 41999 (poking place value) desk store.old out.old at result store.new out.new }
{
    store[place] = value;
    word(desk, out, at, b"ok")
}

// What a block says: its samples, and whether the places behind them still have the mark.
fn put_processed(r: Processed, count: usize, output: &[f32], out: &mut [u8], at: usize) -> usize
    requires { (r.verdict ≡ Ok tt → (count ≤ 1024) × (count ≤ length output.now)) × (at + 42000 ≤ length out.old) }
    ensures put { Put out.old at (block_line r.verdict count r.steps r.current r.one output.now) out.new result }
    ensures upper_bound { result ≤ at + 9259 }
{
    match r.verdict {
        Ok(()) => {
            let next = put_block(out, at, r.steps as u64, r.current, r.one);
            let next = put_list(out, next, b' ', b' ', &output[..count]);
            put_rest(out, next, is_clean(output, count))
        }
        Err(_) => {
            let next = put_verdict(out, at, r.verdict);
            put_rest(out, next, is_clean(output, 0))
        }
    }
}

// The desk after a block, with its cost.
fn played(desk: Desk, r: Processed) -> Desk
    requires { SoundParam desk.param × SoundParam r.param }
    ensures { result ≡ desk_of r.param desk.lent (after_block desk r) }
{
    let totals = after_block(
        desk.totals,
        r.verdict,
        r.steps,
        desk.param.len(),
        r.param.len(),
    );
    Desk {
        param: r.param,
        totals,
        ..desk
    }
}

// A block by either renderer: the word of the session picks it, here alone.
fn render(
    by: Renderer,
    p: AudioParam,
    time: f64,
    period: f64,
    count: usize,
    input: &[f32],
    output: &mut [f32],
    store: &mut [f32],
) -> Processed
    requires { SoundParam p }
    ensures { Processes p store.old (asked_block time period count input.now output.old) result output.new store.new }
{
    match by {
        Renderer::Fast => p.process(time, period, count, input, output, store),
        Renderer::Plain => plain::process(p, time, period, count, input, output, store),
    }
}

// A block, with its output lent.
fn play(
    desk: Desk,
    by: Renderer,
    time: f64,
    period: f64,
    count: usize,
    input: &[f32],
    output: &mut [f32],
    store: &mut [f32],
    out: &mut [u8],
    at: usize,
) -> Answered
    requires { SoundDesk desk × (length store.old ≡ 8192) × (at + 42000 ≤ length out.old) }
    ensures { Spoken 41999 (playing time period count input.now output.old) desk store.old out.old at result store.new out.new }
{
    let r = render(
        by,
        desk.param,
        time,
        period,
        count,
        input,
        output,
        &mut store[..desk.lent],
    );
    let next = put_processed(r, count, &output[..], out, at);
    let desk = played(desk, r);
    Answered { desk, next }
}

// A block whose output, of `len` places, has the mark 4b000000 in each.
fn block(
    desk: Desk,
    by: Renderer,
    time: f64,
    period: f64,
    count: usize,
    len: usize,
    input: &[f32],
    store: &mut [f32],
    out: &mut [u8],
    at: usize,
) -> Answered
    requires { SoundDesk desk × (len ≤ 4096) × (length store.old ≡ 8192) × (at + 42000 ≤ length out.old) }
    ensures { Spoken 41999 (playing time period count input.now (marks len)) desk store.old out.old at result store.new out.new }
{
    let mut output = [8388608.0f32; 4096];
    play(
        desk,
        by,
        time,
        period,
        count,
        input,
        &mut output[..len],
        store,
        out,
        at,
    )
}

// The waiting event at a place, and its numbers as they stand in the store.
fn put_waiting(p: AudioParam, i: usize, store: &[f32], out: &mut [u8], at: usize) -> usize
    requires { SoundParam p × (length store.now ≡ 8192) × (at + width_at (param_of p).queue i ≤ length out.old) }
    ensures put { Put out.old at (waiting_at (param_of p).queue i store.now) out.new result }
    ensures upper_bound { result ≤ at + width_at (param_of p).queue i }
{
    let Some(e) = p.event_at(i) else {
        return at;
    };
    let next = put_event(out, at, e);
    let from = p.offset_of(i);
    let to = from + length_of(e);
    put_list(out, next, b':', b',', &store[from..to])
}

// All waiting events.
fn put_queue(p: AudioParam, store: &[f32], out: &mut [u8], at: usize) -> usize
    requires { SoundParam p × (length store.now ≡ 8192) × (at + 41856 ≤ length out.old) }
    ensures put { Put out.old at (queue_text (param_of p).queue store.now) out.new result }
    ensures upper_bound { result ≤ at + 41856 }
{
    let mut next = at;
    for i in 0..p.len() {
        next = put_waiting(p, i, store, out, next);
    }
    next
}

fn state(desk: Desk, store: &[f32], out: &mut [u8], at: usize) -> Answered
    requires { SoundDesk desk × (length store.now ≡ 8192) × (at + 42000 ≤ length out.old) }
    ensures { Spoken 41999 stating desk store.now out.old at result store.now out.new }
{
    let p = desk.param;
    let n = p.len();
    let next = put_state(
        out,
        at,
        p.automation_rate(),
        p.edition(),
        p.bounds(),
        p.intrinsic_value(),
        p.last_block_time(),
        p.last_block_end(),
        p.last_event(),
        n as u64,
    );
    let next = put_queue(p, store, out, next);
    let next = put_zeros(out, next, is_zeros(&store[..4096], p.offset_of(n)));
    Answered { desk, next }
}

// A call that changes the waiting events; the numbers of a curve are in front of `numbers`.
fn answer_scheduling(
    desk: Desk,
    call: Call,
    numbers: &[f32],
    store: &mut [f32],
    out: &mut [u8],
    at: usize,
) -> Answered
    requires { SoundDesk desk × InRange call × (is_scheduling call ≡ true) × (5000 ≤ length numbers.now) × (length store.old ≡ 8192) × (at + 42000 ≤ length out.old) }
    ensures { (file : List ℕ) → Spoken 41999 (answer_of call numbers.now file) desk store.old out.old at result store.new out.new }
{
    match call {
        Call::Set { value } => set(desk, value, out, at),
        Call::Step { value, time } => step(desk, value, time, out, at),
        Call::Linear { value, time } => linear(desk, value, time, out, at),
        Call::Exponential { value, time } => exponential(desk, value, time, out, at),
        Call::Target {
            value,
            time,
            constant,
        } => target(desk, value, time, constant, out, at),
        Call::Curve {
            start,
            duration,
            len,
        } => curve(desk, start, duration, &numbers[..len], store, out, at),
        Call::Cancel { time } => cancel(desk, time, store, out, at),
        Call::Hold { time } => hold(desk, time, store, out, at),
        // no other call comes here
        _ => Answered { desk, next: at },
    }
}

// One call, whose numbers are in front of `numbers`, and whose bytes in front of `file`.
fn answer(
    desk: Desk,
    call: Call,
    numbers: &[f32],
    file: &mut [u8],
    store: &mut [f32],
    out: &mut [u8],
    at: usize,
) -> Answered
    requires { SoundDesk desk × InRange call × (5000 ≤ length numbers.now) × (30000 ≤ length file.old) × (length store.old ≡ 8192) × (at + 42000 ≤ length out.old) }
    ensures { Spoken 41999 (answer_of call numbers.now file.old) desk store.old out.old at result store.new out.new }
{
    match call {
        Call::Nothing => Answered { desk, next: at },
        Call::Make {
            bounds,
            rate,
            edition,
        } => make(bounds, rate, edition, store, out, at),
        Call::Block {
            by,
            time,
            period,
            count,
            output,
            input,
        } => block(
            desk,
            by,
            time,
            period,
            count,
            output,
            &numbers[..input],
            store,
            out,
            at,
        ),
        Call::Lend { len } => lend(desk, len, out, at),
        Call::Poke { place, value } => poke(desk, place, value, store, out, at),
        Call::State => state(desk, &store[..], out, at),
        Call::Save => save(desk, &store[..], file, out, at),
        Call::Load {
            part,
            len,
            rate,
            edition,
        } => load(desk, part, rate, edition, &file[..len], store, out, at),
        _ => answer_scheduling(desk, call, numbers, store, out, at),
    }
}

// A line of the session language, answered with a line.
pub fn answer_line(
    desk: Desk,
    line: &[u8],
    numbers: &mut [f32],
    file: &mut [u8],
    store: &mut [f32],
    out: &mut [u8],
    at: usize,
) -> Answered
    requires { SoundDesk desk × (5000 ≤ length numbers.old) × (30000 ≤ length file.old) × (length store.old ≡ 8192) × (at + 42000 ≤ length out.old) }
    ensures { Spoken 42000 (line_turn line.now) desk store.old out.old at result store.new out.new }
{
    let Some(call) = read_call(line, numbers, file) else {
        return answer_long(desk, out, at);
    };
    let r = answer(desk, call, &numbers[..], file, store, out, at);
    Answered {
        next: put_byte(out, r.next, b'\n'),
        ..r
    }
}

// A line that is too long to be one.
pub fn answer_long(desk: Desk, out: &mut [u8], at: usize) -> Answered
    requires { SoundDesk desk × (at + 42000 ≤ length out.old) }
    ensures { (s : List Float) → Spoken 42000 (with_newline unread) desk s out.old at result s out.new }
{
    word(desk, out, at, b"unread\n")
}
