// The state that a caller keeps, an array of plain numbers: a parameter read from it, and written to it.
#![tactic(auto)]

ghost use Rattle.std.specs.Prelude.{◌≡◌, length};
ghost use Rattle.laws.specs.Editions.{number_of_edition};
ghost use Rattle.param.specs.Param.{param_of, SoundParam, unmade};
ghost use Rattle.coding.specs.Coding.{state_length, last_in, rate_in, rate_word, PutsLast, PutsHead, Queues, Decodes, Encodes};

use event::{event_at, flag_of, put_event, time_bits, time_in};
use param::{AudioParam, Outcome, edition_of};
use refusals::is_edition;
use rules::{AutomationRate, Bounds, Edition, Finished};
use text::real::Real;
use timeline::{AudioParamEvent, AudioParamEventTimeline};

pub mod event; // event.rt: one waiting event

// How many numbers a state has: its version, the parameter's own, then those of 64 events.
pub const LENGTH: usize = 399;

// The first number of a state: which layout it has.
const VERSION: u64 = 3;

const HEAD: usize = 15;

const EVENT: usize = 6;

pub fn rate_in(word: u64) -> AutomationRate
    ensures { result ≡ rate_in word }
{
    if word == 0 {
        AutomationRate::A
    } else {
        AutomationRate::K
    }
}

fn last_in(flag: u64, time: u64, value: u64) -> Option<Finished>
    ensures { result ≡ last_in flag time value }
{
    if flag == 0 {
        None
    } else {
        Some(Finished {
            time: f64::of_bits(time),
            value: f32::of_bits(value),
        })
    }
}

// The waiting events, if they are few enough.
fn queue_in(state: &[u64]) -> AudioParamEventTimeline
    requires { length state.now ≡ state_length }
    ensures { Queues state.now result }
{
    let empty = AudioParamEventTimeline::new();
    let mut slots = empty.slots;
    let len = state[14] as usize;
    if len <= AudioParam::EVENTS {
        for i in 0..len {
            let event = event_at(state, HEAD + EVENT * i);
            slots[i] = AudioParamEvent { event };
        }
    }
    AudioParamEventTimeline { slots, len }
}

// What no state gives.
fn none() -> Outcome
    ensures { (result ≡ unmade) × SoundParam result.param }
{
    let bounds = Bounds {
        min: 1.0,
        default: 0.0,
        max: 0.0,
    };
    AudioParam::new(bounds, AutomationRate::A)
}

// The parameter of a state; refused as bad bounds are where it has none.
pub fn decode(state: &[u64]) -> Outcome
    ensures { Decodes state.now result }
{
    if state.len() != LENGTH {
        return none();
    }
    if state[0] != VERSION {
        return none();
    }
    if 1 < state[4] {
        return none();
    }
    if !is_edition(state[5]) {
        return none();
    }
    let bounds = Bounds {
        min: f32::of_bits(state[1]),
        default: f32::of_bits(state[2]),
        max: f32::of_bits(state[3]),
    };
    let rate = rate_in(state[4]);
    let edition = edition_of(state[5]);
    let intrinsic = f32::of_bits(state[6]);
    let block = time_in(state[7], state[8]);
    let end = time_in(state[9], state[10]);
    let last = last_in(state[11], state[12], state[13]);
    let timeline = queue_in(state);
    AudioParam::from_parts(bounds, rate, edition, intrinsic, timeline, block, end, last)
}

// A number, as those below: the state that a C caller keeps is an array of numbers.
pub fn rate_word(rate: AutomationRate) -> u64
    ensures { result ≡ rate_word rate }
{
    match rate {
        AutomationRate::A => 0,
        AutomationRate::K => 1,
    }
}

fn edition_word(edition: Edition) -> u64
    ensures { result ≡ number_of_edition edition }
{
    match edition {
        Edition::First => 1,
        Edition::Second => 2,
    }
}

fn put_last(state: &mut [u64], last: Option<Finished>)
    requires { length state.old ≡ state_length }
    ensures { PutsLast state.old last state.new }
{
    match last {
        None => {
            state[11] = 0;
            state[12] = 0;
            state[13] = 0;
        }
        Some(l) => {
            state[11] = 1;
            state[12] = l.time.bits();
            state[13] = l.value.bits();
        }
    }
}

// All but the events.
fn put_head(state: &mut [u64], p: AudioParam)
    requires { SoundParam p × (length state.old ≡ state_length) }
    ensures { PutsHead state.old (param_of p) state.new }
{
    let bounds = p.bounds();
    let block = p.last_block_time();
    let end = p.last_block_end();
    state[0] = VERSION;
    state[1] = bounds.min.bits();
    state[2] = bounds.default.bits();
    state[3] = bounds.max.bits();
    state[4] = rate_word(p.automation_rate());
    state[5] = edition_word(p.edition());
    state[6] = p.intrinsic_value().bits();
    state[7] = flag_of(block);
    state[8] = time_bits(block);
    state[9] = flag_of(end);
    state[10] = time_bits(end);
    put_last(state, p.last_event());
    state[14] = p.len() as u64;
}

// Writes a parameter over a state: the numbers behind its events stay.
pub fn encode(p: AudioParam, state: &mut [u64])
    requires { SoundParam p × (length state.old ≡ state_length) }
    ensures { Encodes p state.old state.new }
{
    put_head(state, p);
    let q = p.timeline();
    for i in 0..q.len {
        put_event(state, HEAD + EVENT * i, q.slots[i].event);
    }
}
