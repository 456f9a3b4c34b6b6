// What stands in a field: the bytes from its tag on, and what is behind them.
ghost use Rattle.std.specs.Prelude.{◌≡◌, false, ◌+◌, ◌*◌, ◌≤◌, ◌<◌, List, length, Float};
ghost use Rattle.rules.specs.Numbers.{store_length, is_finite};
ghost use Rattle.rules.specs.Block.{curve};
ghost use Rattle.rules.specs.Refusals.{all_finite};
ghost use Rattle.param.specs.Param.{SoundParam, Answers};
ghost use Rattle.words.specs.Words.{singles_at};
ghost use Rattle.card.specs.Card.{tag_of, is_range, has_head, length_in, field_length, is_whole, is_tag, fits_tag, is_wrong, is_misplaced, bounds_in, event_in, time_of, is_minus_zero, has_no_constant, is_out_of_turn};
ghost use Rattle.card_reader.specs.Reader.{FieldFits};

use floats::{is_finite, is_zero};
use param::{AudioParam, Outcome};
use refusals::block::is_earlier;
use refusals::sound::is_from_zero;
use rules::Bounds;
use words::{real_at, word_at};

pub const RANGE: u8 = 6;

#[tactic(auto, unfolding(card::specs::Card::has_head))]
fn has_head(bytes: &[u8]) -> bool
    ensures { result ≡ has_head bytes.now }
{
    3 <= bytes.len()
}

// How many bytes follow the head.
fn length_in(bytes: &[u8]) -> usize
    requires { 3 ≤ length bytes.now }
    ensures { (result ≡ length_in bytes.now) × (result ≤ 65535) }
{
    word_at(bytes, 1, 2) as usize
}

// How many bytes the field has.
#[tactic(auto, unfolding(card::specs::Card::field_length))]
pub fn field_length(bytes: &[u8]) -> usize
    requires { 3 ≤ length bytes.now }
    ensures { (result ≡ field_length bytes.now) × (result ≤ 65538) }
{
    3 + length_in(bytes)
}

#[tactic(auto, unfolding(card::specs::Card::is_whole, card::specs::Card::has_head))]
pub fn is_whole(bytes: &[u8]) -> bool
    ensures { result ≡ is_whole bytes.now }
{
    has_head(bytes) && field_length(bytes) <= bytes.len()
}

#[tactic(auto, unfolding(card::specs::Card::is_tag))]
pub fn is_tag(tag: u8) -> bool
    ensures { result ≡ is_tag tag }
{
    1 <= tag && tag <= 6
}

#[tactic(auto, unfolding(card::specs::Card::fits_tag))]
fn fits_tag(tag: u8, len: usize) -> bool
    ensures { result ≡ fits_tag tag len }
{
    match tag {
        4 => len == 20,
        5 => 16 <= len && len % 4 == 0,
        _ => len == 12,
    }
}

// A length that its tag has not.
#[tactic(auto, unfolding(card::specs::Card::is_wrong, card::specs::Card::tag_of, card::specs::Card::has_head))]
pub fn is_wrong(bytes: &[u8]) -> bool
    ensures { result ≡ is_wrong bytes.now }
{
    has_head(bytes) && !fits_tag(bytes[0], length_in(bytes))
}

// An event before the range, or a second range.
#[tactic(auto, unfolding(card::specs::Card::is_misplaced, card::specs::Card::tag_of, card::specs::Card::is_range))]
pub fn is_misplaced(ranged: bool, bytes: &[u8]) -> bool
    requires { 1 ≤ length bytes.now }
    ensures { result ≡ is_misplaced «ranged» bytes.now }
{
    if bytes[0] == RANGE { ranged } else { !ranged }
}

// Minimum, default, maximum.
#[tactic(auto, unfolding(card::specs::Card::bounds_in))]
pub fn bounds_in(bytes: &[u8]) -> Bounds
    requires { 15 ≤ length bytes.now }
    ensures { result ≡ bounds_in bytes.now }
{
    Bounds {
        min: real_at(bytes, 3),
        default: real_at(bytes, 7),
        max: real_at(bytes, 11),
    }
}

// The time of an event's field.
pub fn time_in(bytes: &[u8]) -> f64
    requires { FieldFits bytes.now × (is_range bytes.now ≡ false) }
    ensures { result ≡ time_of (event_in bytes.now) }
{
    if bytes[0] <= 4 {
        real_at(bytes, 7)
    } else {
        real_at(bytes, 3)
    }
}

#[tactic(auto, unfolding(card::specs::Card::is_minus_zero))]
fn is_minus_zero(time: f64) -> bool
    ensures { result ≡ is_minus_zero time }
{
    is_zero(time) && !is_from_zero(time)
}

// A target whose time constant is 0.
fn has_no_constant(bytes: &[u8]) -> bool
    requires { FieldFits bytes.now × (is_range bytes.now ≡ false) }
    ensures { result ≡ has_no_constant (event_in bytes.now) }
{
    bytes[0] == 4 && is_zero(real_at::<f64>(bytes, 15))
}

// An event earlier than the one before it, a time of -0, or a time constant of 0.
#[tactic(auto, unfolding(card::specs::Card::is_out_of_turn))]
pub fn is_out_of_turn(before: Option<f64>, bytes: &[u8]) -> bool
    requires { FieldFits bytes.now × (is_range bytes.now ≡ false) }
    ensures { result ≡ is_out_of_turn before (event_in bytes.now) }
{
    let time = time_in(bytes);
    is_earlier(before, time) || is_minus_zero(time) || has_no_constant(bytes)
}

// As many numbers as the slice has places, from a place of the field on.
fn read_singles(bytes: &[u8], at: usize, values: &mut [f32])
    requires { at + 4 * length values.old ≤ length bytes.now }
    ensures { values.new ≡ singles_at bytes.now at (length values.old) }
{
    for i in 0..values.len() {
        values[i] = real_at(bytes, at + 4 * i);
    }
}

// A number that is finite if and only if all n from a place on are.
fn worst_of(bytes: &[u8], at: usize, n: usize) -> f32
    requires { at + 4 * n ≤ length bytes.now }
    ensures { is_finite result ≡ all_finite (singles_at bytes.now at n) }
{
    for i in 0..n {
        let x = real_at(bytes, at + 4 * i);
        if !is_finite(x) {
            return x;
        }
    }
    0.0
}

// A curve that has no room whatever waits is refused as 4,097 numbers are, if these are finite if and only if its own are.
fn schedule_long(p: AudioParam, start: f64, duration: f64, worst: f32, store: &mut [f32]) -> Outcome
    requires { SoundParam p }
    ensures { (xs : List Float) → store_length < length xs → is_finite worst ≡ all_finite xs → Answers p store.old (curve start duration xs) result store.new }
{
    let values = [worst; 4097];
    p.set_value_curve_at_time(&values[..], start, duration, store)
}

fn schedule_curve(p: AudioParam, bytes: &[u8], store: &mut [f32]) -> Outcome
    requires { SoundParam p × FieldFits bytes.now × (tag_of bytes.now ≡ 5) }
    ensures { Answers p store.old (event_in bytes.now) result store.new }
{
    let start = real_at(bytes, 3);
    let duration = real_at(bytes, 11);
    let n = (length_in(bytes) - 16) / 4;
    if AudioParam::STORE < n {
        let worst = worst_of(bytes, 19, n);
        return schedule_long(p, start, duration, worst, store);
    }
    let mut values = [0.0f32; AudioParam::STORE];
    read_singles(bytes, 19, &mut values[..n]);
    p.set_value_curve_at_time(&values[..n], start, duration, store)
}

// The event of a field, scheduled; a curve's numbers go into the store.
pub fn schedule(p: AudioParam, bytes: &[u8], store: &mut [f32]) -> Outcome
    requires { SoundParam p × FieldFits bytes.now × (is_range bytes.now ≡ false) }
    ensures { Answers p store.old (event_in bytes.now) result store.new }
{
    let tag = bytes[0];
    if tag == 5 {
        return schedule_curve(p, bytes, store);
    }
    let value = real_at(bytes, 3);
    let time = real_at(bytes, 7);
    match tag {
        1 => p.set_value_at_time(value, time),
        2 => p.linear_ramp_to_value_at_time(value, time),
        3 => p.exponential_ramp_to_value_at_time(value, time),
        _ => p.set_target_at_time(value, time, real_at(bytes, 15)),
    }
}
