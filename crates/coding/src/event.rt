// One waiting event as six numbers of the state.
ghost use Rattle.std.specs.Prelude.{◌≡◌, ◌+◌, ◌≤◌, length};
ghost use Rattle.coding.specs.Coding.{time_in, event_of, event_at, flag_of, TimeBits, PutsWords, PutsEvent};

use rules::Event;
use text::real::Real;

pub fn time_in(flag: u64, time: u64) -> Option<f64>
    ensures { result ≡ time_in flag time }
{
    if flag == 0 {
        None
    } else {
        Some(f64::of_bits(time))
    }
}

#[tactic(auto, unfolding(crate::specs::Coding::flag_of))]
pub fn flag_of(t: Option<f64>) -> u64
    ensures { result ≡ flag_of t }
{
    t.is_some() as u64
}

pub fn time_bits(t: Option<f64>) -> u64
    ensures { TimeBits t result }
{
    match t {
        None => 0,
        Some(x) => x.bits(),
    }
}

// An event by its kind.
#[tactic(auto, unfolding(crate::specs::Coding::event_of))]
fn event_of(kind: u64, word: u64, time: u64, other: u64, hold: Option<f64>) -> Event
    ensures { result ≡ event_of kind word time other hold }
{
    let value = f32::of_bits(word);
    let time = f64::of_bits(time);
    let other = f64::of_bits(other);
    match kind {
        0 => Event::Step { value, time },
        1 => Event::Linear { value, time, hold },
        2 => Event::Exponential { value, time, hold },
        3 => Event::Target {
            value,
            time,
            constant: other,
            hold,
        },
        _ => Event::Curve {
            start: time,
            duration: other,
            len: if kind == 4 { word as usize } else { 0 },
            hold,
        },
    }
}

// The event whose numbers begin at a place.
pub fn event_at(state: &[u64], at: usize) -> Event
    requires { at + 6 ≤ length state.now }
    ensures { result ≡ event_at state.now at }
{
    let hold = time_in(state[at + 4], state[at + 5]);
    event_of(state[at], state[at + 1], state[at + 2], state[at + 3], hold)
}

// The six numbers of an event, from a place on: its kind, a number of its own, its time, another number, and its hold time.
fn put_words(
    state: &mut [u64],
    at: usize,
    kind: u64,
    word: u64,
    time: f64,
    other: u64,
    hold: Option<f64>,
)
    requires { at + 6 ≤ length state.old }
    ensures { PutsWords state.old at kind word time other hold state.new }
{
    let time = time.bits();
    let flag = flag_of(hold);
    let hold = time_bits(hold);
    state[at] = kind;
    state[at + 1] = word;
    state[at + 2] = time;
    state[at + 3] = other;
    state[at + 4] = flag;
    state[at + 5] = hold;
}

// An event's numbers, from a place on.
pub fn put_event(state: &mut [u64], at: usize, e: Event)
    requires { at + 6 ≤ length state.old }
    ensures { PutsEvent state.old at e state.new }
{
    match e {
        Event::Step { value, time } => { put_words(state, at, 0, value.bits(), time, 0, None) }
        Event::Linear { value, time, hold } => {
            put_words(state, at, 1, value.bits(), time, 0, hold)
        }
        Event::Exponential { value, time, hold } => {
            put_words(state, at, 2, value.bits(), time, 0, hold)
        }
        Event::Target {
            value,
            time,
            constant,
            hold,
        } => {
            let other = constant.bits();
            put_words(state, at, 3, value.bits(), time, other, hold)
        }
        Event::Curve {
            start,
            duration,
            len,
            hold,
        } => {
            let other = duration.bits();
            put_words(state, at, 4, len as u64, start, other, hold)
        }
    }
}
