// The writer: a parameter before its first block as a schedule file (02, C-11), into a lent slice.
#![tactic(auto)]

ghost use Rattle.std.specs.Prelude.{◌≡◌, ◌∷◌, ◌++◌, ◌+◌, ◌*◌, ◌≤◌, length};
ghost use Rattle.rules.specs.Numbers.{store_length};
ghost use Rattle.text.specs.Put.{Put};
ghost use Rattle.words.specs.Words.{bytes_of, single_bytes, double_bytes, numbers_bytes};
ghost use Rattle.param.specs.Param.{SoundParam, param_of};
ghost use Rattle.card.specs.Card.{field_of, range_field, event_field, fields_of, file_of, is_held, is_unwritable, judged_from, judged};
ghost use Rattle.card_writer.specs.Writer.{schedule_of, Saves};

use card::{Fault, Judged, is_accepted};
use param::AudioParam;
use refusals::all_finite;
use refusals::sound::has_played;
use rules::{Bounds, Event, Refusal};
use text::write::put_byte;
use timeline::length_of;
use words::{put_number, put_real};

// How many bytes the range's field has.
const RANGE: usize = 15;

// ---- what is refused

#[tactic(auto, unfolding(card::specs::Card::is_held, card::specs::Card::has_hold))]
fn is_held(e: Event) -> bool
    ensures { result ≡ is_held e }
{
    match e {
        Event::Step { .. } => false,
        Event::Linear { hold, .. }
        | Event::Exponential { hold, .. }
        | Event::Target { hold, .. }
        | Event::Curve { hold, .. } => hold.is_some(),
    }
}

// Held, or with a number that is not finite.
fn is_unwritable(e: Event, numbers: &[f32]) -> bool
    ensures { result ≡ is_unwritable (record { event = e; numbers = numbers.now }) }
{
    is_held(e) | !all_finite(numbers)
}

// How many bytes an event's field has.
#[tactic(auto, unfolding(card::specs::Card::event_field, words::specs::Words::single_bytes, words::specs::Words::double_bytes, words::specs::Words::bytes_of))]
fn field_length(e: Event, numbers: &[f32]) -> usize
    requires { length numbers.now ≤ store_length }
    ensures { result ≡ length (event_field e numbers.now) }
{
    match e {
        Event::Step { .. } | Event::Linear { .. } | Event::Exponential { .. } => 15,
        Event::Target { .. } => 23,
        Event::Curve { .. } => 19 + 4 * numbers.len(),
    }
}

// The place of the first event that is not written, or how many bytes the file has.
fn judge_events(p: AudioParam, store: &[f32]) -> Judged
    requires { SoundParam p × (length store.now ≡ store_length) }
    ensures { result ≡ judged_from 0 (schedule_of p store.now) (length (file_of (param_of p).bounds (schedule_of p store.now))) }
{
    let q = p.timeline();
    let n = q.len;
    let mut many = RANGE;
    let mut from = 0usize;
    for i in 0..n {
        let e = q.slots[i].event;
        let to = from + length_of(e);
        let numbers = &store[from..to];
        if is_unwritable(e, numbers) {
            return Judged {
                verdict: Err(Fault::Unwritable),
                at: i,
            };
        }
        many += field_length(e, numbers);
        from = to;
    }
    Judged {
        verdict: Ok(()),
        at: many,
    }
}

// What is said, whatever room the slice has: the store's length, a block already answered, the events.
fn judge(p: AudioParam, store: &[f32]) -> Judged
    requires { SoundParam p }
    ensures { result ≡ judged (param_of p) store.now }
{
    if store.len() != AudioParam::STORE {
        return Judged {
            verdict: Err(Fault::Own(Refusal::BadStore)),
            at: 0,
        };
    }
    if has_played(p.last_block_time()) {
        return Judged {
            verdict: Err(Fault::Unwritable),
            at: 0,
        };
    }
    judge_events(p, store)
}

// ---- fields, each from a place on; each function gives the place behind

// A field's tag and the length of its contents.
fn put_head(out: &mut [u8], at: usize, tag: u8, len: usize) -> usize
    requires { at + 3 ≤ length out.old }
    ensures { Put out.old at (tag ∷ bytes_of 2 len) out.new result }
{
    let next = put_byte(out, at, tag);
    put_number(out, next, len as u64, 2)
}

fn put_range(out: &mut [u8], at: usize, b: Bounds) -> usize
    requires { at + 15 ≤ length out.old }
    ensures { Put out.old at (range_field b) out.new result }
{
    let next = put_head(out, at, 6, 12);
    let next = put_real(out, next, b.min);
    let next = put_real(out, next, b.default);
    put_real(out, next, b.max)
}

// A step's field or a ramp's.
fn put_value(out: &mut [u8], at: usize, tag: u8, value: f32, time: f64) -> usize
    requires { at + 15 ≤ length out.old }
    ensures { Put out.old at (field_of tag (single_bytes value ++ double_bytes time)) out.new result }
{
    let next = put_head(out, at, tag, 12);
    let next = put_real(out, next, value);
    put_real(out, next, time)
}

fn put_target(out: &mut [u8], at: usize, value: f32, time: f64, constant: f64) -> usize
    requires { at + 23 ≤ length out.old }
    ensures { Put out.old at (field_of 4 (single_bytes value ++ (double_bytes time ++ double_bytes constant))) out.new result }
{
    let next = put_head(out, at, 4, 20);
    let next = put_real(out, next, value);
    let next = put_real(out, next, time);
    put_real(out, next, constant)
}

fn put_numbers(out: &mut [u8], at: usize, numbers: &[f32]) -> usize
    requires { at + 4 * length numbers.now ≤ length out.old }
    ensures { Put out.old at (numbers_bytes numbers.now) out.new result }
{
    let mut next = at;
    for i in 0..numbers.len() {
        next = put_real(out, next, numbers[i]);
    }
    next
}

fn put_curve(out: &mut [u8], at: usize, start: f64, duration: f64, numbers: &[f32]) -> usize
    requires { at + (19 + 4 * length numbers.now) ≤ length out.old }
    ensures { Put out.old at (field_of 5 (double_bytes start ++ (double_bytes duration ++ numbers_bytes numbers.now))) out.new result }
{
    let next = put_head(out, at, 5, 16 + 4 * numbers.len());
    let next = put_real(out, next, start);
    let next = put_real(out, next, duration);
    put_numbers(out, next, numbers)
}

fn put_event(out: &mut [u8], at: usize, e: Event, numbers: &[f32]) -> usize
    requires { at + length (event_field e numbers.now) ≤ length out.old }
    ensures { Put out.old at (event_field e numbers.now) out.new result }
{
    match e {
        Event::Step { value, time } => put_value(out, at, 1, value, time),
        Event::Linear { value, time, .. } => put_value(out, at, 2, value, time),
        Event::Exponential { value, time, .. } => put_value(out, at, 3, value, time),
        Event::Target {
            value,
            time,
            constant,
            ..
        } => put_target(out, at, value, time, constant),
        Event::Curve {
            start,
            duration,
            ..
        } => put_curve(out, at, start, duration, numbers),
    }
}

// All waiting events.
fn put_events(p: AudioParam, store: &[f32], out: &mut [u8], at: usize) -> usize
    requires { SoundParam p × (length store.now ≡ store_length) × (at + length (fields_of (schedule_of p store.now)) ≤ length out.old) }
    ensures { Put out.old at (fields_of (schedule_of p store.now)) out.new result }
{
    let q = p.timeline();
    let mut next = at;
    let mut from = 0usize;
    for i in 0..q.len {
        let e = q.slots[i].event;
        let to = from + length_of(e);
        next = put_event(out, next, e, &store[from..to]);
        from = to;
    }
    next
}

// ---- the whole

// Writes the file into `out` and says how many bytes it has, or says why it is refused and writes nothing. Of a slice that is too short it says how many bytes
// the file takes.
pub fn write(p: AudioParam, store: &[f32], out: &mut [u8]) -> Judged
    requires { SoundParam p }
    ensures { Saves p store.now out.old result out.new }
{
    let said = judge(p, store);
    if !is_accepted(said.verdict) {
        return said;
    }
    let at = said.at;
    if out.len() < at {
        return Judged {
            verdict: Err(Fault::NoRoom),
            at,
        };
    }
    let next = put_range(out, 0, p.bounds());
    let at = put_events(p, store, out, next);
    Judged {
        verdict: Ok(()),
        at,
    }
}
