// The waiting events of one parameter, by value, in the order in which they are walked.
#![tactic(auto)]

ghost use Rattle.std.specs.Prelude.{◌≡◌, [], ◌≤◌, ◌<◌, ◌^◌, take, drop, set, find};
ghost use Rattle.rules.specs.Numbers.{most_events};
ghost use Rattle.rules.specs.Queue.{hold_or, filed_under, is_ramp, curve_end, is_inside, is_filed_inside, any_covers, any_inside, length_of, lengths_of, place_behind, put_at, arrived, those, lasts_to, goes_at, held_event, runs_at, last_held, held, events_of, attached};
ghost use Rattle.rules.specs.Queue as rule;
ghost use Rattle.laws.specs.Search.{is_later_than};
ghost use Rattle.timeline.specs.Timeline.{blank_event, slot_of, made, waiting, Neat, first_of, head_as, beginning, stays};

use rules::Event;

// How many events can wait.
pub const EVENTS: usize = 64;

// One waiting event.
#[derive(Clone, Copy)]
pub struct AudioParamEvent {
    pub event: Event,
}

// The events of the first `len` slots wait; the other slots are blank. `Neat` says so, and no invariant: `AudioParam::from_parts` takes any timeline, and may refuse it.
// An array with its length, since document 01 names it: there is no heap.
#[derive(Clone, Copy)]
pub struct AudioParamEventTimeline {
    pub slots: [AudioParamEvent; EVENTS],
    pub len: usize,
}

// The hold time, else the time given.
#[tactic(auto, unfolding(rules::specs::Queue::hold_or))]
pub fn hold_or(hold: Option<f64>, time: f64) -> f64
    ensures { result ≡ hold_or hold time }
{
    hold.unwrap_or(time)
}

// The time that an event is filed under: a held ramp's hold time, else its own.
#[tactic(auto, unfolding(rules::specs::Queue::filed_under))]
pub fn filed_under(e: Event) -> f64
    ensures { result ≡ filed_under e }
{
    match e {
        Event::Step { time, .. } | Event::Target { time, .. } => time,
        Event::Linear { time, hold, .. } => hold_or(hold, time),
        Event::Exponential { time, hold, .. } => hold_or(hold, time),
        Event::Curve { start, .. } => start,
    }
}

#[tactic(auto, unfolding(rules::specs::Queue::is_ramp))]
pub fn is_ramp(e: Event) -> bool
    ensures { result ≡ is_ramp e }
{
    matches!(e, Event::Linear { .. } | Event::Exponential { .. })
}

// Where a curve ends: at its hold time, else at start + duration.
#[tactic(auto, unfolding(rules::specs::Queue::curve_end))]
pub fn curve_end(start: f64, duration: f64, hold: Option<f64>) -> f64
    ensures { result ≡ curve_end start duration hold }
{
    hold_or(hold, start + duration)
}

// At the start or later, and before the end.
#[tactic(auto, unfolding(rules::specs::Queue::is_inside))]
fn is_inside(start: f64, end: f64, time: f64) -> bool
    ensures { result ≡ is_inside start end time }
{
    (start <= time) & (time < end)
}

// Whether the time lies inside the event, which is a curve.
#[tactic(auto, unfolding(rules::specs::Queue::covers))]
fn covers(e: Event, time: f64) -> bool
    ensures { result ≡ rule.covers time e }
{
    match e {
        Event::Curve {
            start,
            duration,
            hold,
            ..
        } => is_inside(start, curve_end(start, duration, hold), time),
        _ => false,
    }
}

// How many numbers of the curve store are the event's.
#[tactic(auto, unfolding(rules::specs::Queue::length_of))]
pub fn length_of(e: Event) -> usize
    ensures { result ≡ length_of e }
{
    match e {
        Event::Curve { len, .. } => len,
        _ => 0,
    }
}

// Whether the event is a curve that ends at c or later.
#[tactic(auto, unfolding(rules::specs::Queue::lasts_to))]
fn lasts_to(e: Event, c: f64) -> bool
    ensures { result ≡ lasts_to c e }
{
    match e {
        Event::Curve {
            start,
            duration,
            hold,
            ..
        } => c <= curve_end(start, duration, hold),
        _ => false,
    }
}

// Whether a cancel at c takes the event: it is filed at c or later, or is a curve that lasts to c.
#[tactic(auto, unfolding(rules::specs::Queue::goes_at))]
pub fn goes_at(e: Event, c: f64) -> bool
    ensures { result ≡ goes_at c e }
{
    !(filed_under(e) < c) | lasts_to(e, c)
}

// Whether a cut at c leaves the event: a cancel's does not take it or, where those at c stay, it is no later.
#[tactic(auto, unfolding(crate::specs::Timeline::is_kept, rules::specs::Queue::is_before, rules::specs::Queue::is_not_later, rules::specs::Queue::is_later))]
pub fn is_kept(e: Event, c: f64, equal: bool) -> bool
    ensures { result ≡ stays equal c e }
{
    if equal {
        !(c < filed_under(e))
    } else {
        !goes_at(e, c)
    }
}

// The hold time c, unless an earlier one is there.
#[tactic(auto, unfolding(rules::specs::Queue::sooner))]
fn sooner(h: Option<f64>, c: f64) -> Option<f64>
    ensures { result ≡ rule.sooner h c }
{
    match h {
        Some(t) if t < c => h,
        _ => Some(c),
    }
}

// The event with hold time c; a step has none.
#[tactic(auto, unfolding(rules::specs::Queue::held_event))]
fn held_event(e: Event, c: f64) -> Event
    ensures { result ≡ held_event c e }
{
    match e {
        Event::Step { value, time } => Event::Step { value, time },
        Event::Linear { value, time, hold } => Event::Linear {
            value,
            time,
            hold: sooner(hold, c),
        },
        Event::Exponential { value, time, hold } => Event::Exponential {
            value,
            time,
            hold: sooner(hold, c),
        },
        Event::Target {
            value,
            time,
            constant,
            hold,
        } => Event::Target {
            value,
            time,
            constant,
            hold: sooner(hold, c),
        },
        Event::Curve {
            start,
            duration,
            len,
            hold,
        } => Event::Curve {
            start,
            duration,
            len,
            hold: sooner(hold, c),
        },
    }
}

// Whether the event is a target, or a curve that has not ended at c.
#[tactic(auto, unfolding(rules::specs::Queue::runs_at))]
fn runs_at(e: Event, c: f64) -> bool
    ensures { result ≡ runs_at c e }
{
    match e {
        Event::Target { .. } => true,
        Event::Curve {
            start,
            duration,
            ..
        } => c < start + duration,
        _ => false,
    }
}

// What stands in an unused slot.
fn blank() -> AudioParamEvent
    ensures { result ≡ slot_of blank_event }
{
    AudioParamEvent {
        event: Event::Step {
            value: 0.0,
            time: 0.0,
        },
    }
}

impl AudioParamEventTimeline {
    pub fn new() -> Self
        ensures { result ≡ made [] }
    {
        let b = blank();
        Self {
            slots: [b; EVENTS],
            len: 0,
        }
    }

    // The event at a place of the queue, or that none waits there.
    pub fn event_at(self, i: usize) -> Option<Event>
        requires { Neat self }
        ensures { result ≡ first_of (drop i (waiting self)) }
    {
        if self.len <= i {
            return None;
        }
        Some(self.slots[i].event)
    }

    // The first waiting event.
    pub fn peek(self) -> Option<Event>
        requires { Neat self }
        ensures { result ≡ first_of (waiting self) }
    {
        self.event_at(0)
    }

    // The event behind the first.
    pub fn next(self) -> Option<Event>
        requires { Neat self }
        ensures { result ≡ first_of (drop 1 (waiting self)) }
    {
        self.event_at(1)
    }

    // The place behind the last event of equal or smaller time.
    pub fn place_behind(self, time: f64) -> usize
        requires { Neat self }
        ensures { result ≡ place_behind time (waiting self) }
    {
        for i in (0..self.len).rev() {
            let t = filed_under(self.slots[i].event);
            if t <= time {
                return i + 1;
            }
        }
        0
    }

    // The first curve inside which the time lies.
    pub fn covering(self, time: f64) -> Option<Event>
        requires { Neat self }
        ensures { result ≡ find (rule.covers time) (waiting self) }
    {
        self.slots[..self.len]
            .iter()
            .map(|slot| slot.event)
            .find(|e| covers(*e, time))
    }

    // The first event that is filed at the start or later, and before the end.
    #[tactic(auto, unfolding(rules::specs::Queue::is_filed_inside))]
    pub fn filed_inside(self, start: f64, end: f64) -> Option<Event>
        requires { Neat self }
        ensures { result ≡ find (is_filed_inside start end) (waiting self) }
    {
        self.slots[..self.len]
            .iter()
            .map(|slot| slot.event)
            .find(|e| is_inside(start, end, filed_under(*e)))
    }

    // Whether the time lies inside a waiting curve.
    pub fn any_covers(self, time: f64) -> bool
        requires { Neat self }
        ensures { result ≡ any_covers time (waiting self) }
    {
        self.covering(time).is_some()
    }

    // Whether an event is filed at the start or later, and before the end.
    pub fn any_inside(self, start: f64, end: f64) -> bool
        requires { Neat self }
        ensures { result ≡ any_inside start end (waiting self) }
    {
        self.filed_inside(start, end).is_some()
    }

    // The queue with one event more, at a place. The slots alone are moved: of a whole queue, lent to do so, more copies are made.
    pub fn put_at(self, place: usize, e: Event) -> Self
        requires { Neat self × (self.len < most_events) × (place ≤ self.len) }
        ensures { result ≡ made (put_at place e (waiting self)) }
    {
        let mut slots = self.slots;
        slots.copy_within(place..self.len, place + 1);
        slots[place].event = e;
        Self {
            slots,
            len: self.len + 1,
        }
    }

    // An event arrives: it goes behind all of equal or smaller time.
    pub fn push(self, e: Event) -> Self
        requires { Neat self × (self.len < most_events) }
        ensures { result ≡ made (arrived e (waiting self)) }
    {
        let place = self.place_behind(filed_under(e));
        self.put_at(place, e)
    }

    // The queue without its first n events.
    pub fn drop_heads(self, n: usize) -> Self
        requires { Neat self }
        ensures { result ≡ made (drop n (waiting self)) }
    {
        let left = &self.slots[n.min(self.len)..self.len];
        let len = left.len();
        let mut slots = Self::new().slots;
        slots[..len].copy_from_slice(left);
        Self { slots, len }
    }

    // The queue without its head.
    pub fn pop(self) -> Self
        requires { Neat self }
        ensures { result ≡ made (drop 1 (waiting self)) }
    {
        self.drop_heads(1)
    }

    // The first slot, where the head becomes another event. With no other, and in an empty queue, it stays.
    fn first_slot(self, head: Option<Event>) -> AudioParamEvent
        requires { Neat self }
        ensures { beginning result self ≡ made (head_as head (waiting self)) }
    {
        let slot = self.slots[0];
        if self.len == 0 {
            return slot;
        }
        head.map_or(slot, |event| AudioParamEvent { event })
    }

    // The head becomes another event, if there is one; in an empty queue nothing does. One store for all cases, so that the queue is copied once.
    pub fn replace_peek(self, head: Option<Event>) -> Self
        requires { Neat self }
        ensures { result ≡ made (head_as head (waiting self)) }
    {
        let slot = self.first_slot(head);
        let mut q = self;
        q.slots[0] = slot;
        q
    }

    // What a cut at c leaves.
    // Beside drop_heads: a test is asked of each event, there a part is copied as it stands.
    pub fn retain(self, c: f64, equal: bool) -> Self
        requires { Neat self }
        ensures { result ≡ made (those (stays equal c) (waiting self)) }
    {
        let mut kept = Self::new();
        for slot in &self.slots[..self.len] {
            if is_kept(slot.event, c, equal) {
                kept.slots[kept.len] = *slot;
                kept.len += 1;
            }
        }
        kept
    }

    // The first event later than c.
    #[tactic(auto, unfolding(laws::specs::Search::is_later_than))]
    fn first_later(self, c: f64) -> Option<Event>
        requires { Neat self }
        ensures { result ≡ find (is_later_than c) (waiting self) }
    {
        self.slots[..self.len]
            .iter()
            .map(|slot| slot.event)
            .find(|e| c < filed_under(*e))
    }

    // The last event gets hold time c where it runs at c.
    fn hold_last(self, c: f64) -> Self
        requires { Neat self }
        ensures { result ≡ made (events_of (last_held c (attached (waiting self) []))) }
    {
        let Some(last) = self.len.checked_sub(1) else {
            return self;
        };
        let mut q = self;
        let e = q.slots[last].event;
        if runs_at(e, c) {
            q.slots[last].event = held_event(e, c);
        }
        q
    }

    // Cancel-and-hold at c. A ramp that is the first event later than c is held, and stays, where c is inside no curve; otherwise the last of the others is held where
    // it runs.
    pub fn hold(self, c: f64) -> Self
        requires { Neat self }
        ensures { result ≡ made (events_of (held c (attached (waiting self) []))) }
    {
        let kept = self.retain(c, true);
        let Some(e) = self.first_later(c) else {
            return kept.hold_last(c);
        };
        let ramp = is_ramp(e) & !kept.any_covers(c);
        if ramp {
            let end = kept.len;
            kept.put_at(end, held_event(e, c))
        } else {
            kept.hold_last(c)
        }
    }

    // Where the numbers of the event at a place begin in the curve store.
    pub fn offset_of(self, place: usize) -> usize
        requires { Neat self × (lengths_of (waiting self) < 2 ^ 64) }
        ensures { result ≡ lengths_of (take place (waiting self)) }
    {
        let mut offset = 0;
        for slot in &self.slots[..place.min(self.len)] {
            offset += length_of(slot.event);
        }
        offset
    }

    // How many numbers the waiting curves have.
    pub fn lengths(self) -> usize
        requires { Neat self × (lengths_of (waiting self) < 2 ^ 64) }
        ensures { result ≡ lengths_of (waiting self) }
    {
        self.offset_of(self.len)
    }
}
