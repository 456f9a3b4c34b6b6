// The walk over a block's heads: the five bodies, named as in the Rust, and the loop that takes one head after the other.
#![tactic(auto)]

ghost use Rattle.std.specs.Prelude.{◌≡◌, Float, [], ℕ, ◌+◌, ◌≤◌, ◌<◌, ◌^◌, length};
ghost use Rattle.std.specs.Float.{binary64};
ghost use Rattle.std.specs.Float.Ieee.{add, sub};
ghost use Rattle.rules.specs.Numbers.{store_length};
ghost use Rattle.rules.specs.Queue.{alone, length_of};
ghost use Rattle.rules.specs.Samples.{is_ratio, ratio_log, ramp_sample, target_sample, curve_sample, last_number};
ghost use Rattle.rules.specs.Walk.{step_time, last_or, end_by_next, end_by_hold, snaps as snaps_to, from_start, span_turn, target_left, target_run, step_turn, linear_turn, exponential_turn, target_turn, curve_turn, turn_of, turn};
ghost use Rattle.rules.specs.Block.{walk_from, values_before};
ghost use Rattle.samples.specs.At.{exponential_at};
ghost use Rattle.fills.specs.Filled.{Room};
ghost use Rattle.timeline.specs.Timeline.{waiting};
ghost use Rattle.timeline.specs.Heads.{waiting_as, numbers_at, Numbered};
ghost use Rattle.automation.specs.Walks.{walk_as, Ready, Turns, with_filled, with_intrinsic, with_last, consumed_with, counted_once, turned_to_step, stopped_with, went_on_with, ended_at};
ghost use Rattle.automation.specs.Walked.{Begins, Ends, Walkable, Walks};

use rules::{AutomationRate, BlockInfos, Event, Finished};
use timeline::{AudioParamEventTimeline, hold_or};

// What a walk carries from head to head, beside the places of the block, of which the first `filled` places are filled (at K-rate: the block's one value).
#[derive(Clone, Copy)]
pub struct Walk {
    pub intrinsic: f32,
    pub last: Option<Finished>,
    pub filled: usize,
    pub steps: usize,
    pub finished: usize,
    pub turned: usize,
}

impl Walk {
    fn with_filled(self, filled: usize) -> Walk
        ensures { result ≡ with_filled filled self }
    {
        Walk { filled, ..self }
    }

    fn with_intrinsic(self, value: f32) -> Walk
        ensures { result ≡ with_intrinsic value self }
    {
        Walk {
            intrinsic: value,
            ..self
        }
    }

    fn with_last(self, finished: Finished) -> Walk
        ensures { result ≡ with_last finished self }
    {
        Walk {
            last: Some(finished),
            ..self
        }
    }

    // To consume a head makes its time and value the last event, its value the intrinsic one.
    fn consumed(self, time: f64, value: f32) -> Walk
        requires { self.finished < 2 ^ 32 }
        ensures { result ≡ consumed_with time value self }
    {
        Walk {
            intrinsic: value,
            last: Some(Finished { time, value }),
            finished: self.finished + 1,
            ..self
        }
    }

    // One head more.
    fn counted(self) -> Walk
        requires { self.steps < 2 ^ 33 }
        ensures { result ≡ counted_once self }
    {
        Walk {
            steps: self.steps + 1,
            ..self
        }
    }

    // An exponential that became a step, which is one head more.
    fn turned_to_step(self) -> Walk
        requires { (self.steps < 2 ^ 32) × (self.turned < 2 ^ 32) }
        ensures { result ≡ turned_to_step self }
    {
        let w = self.counted();
        Walk {
            turned: w.turned + 1,
            ..w
        }
    }
}

// A body's answer: what the walk then carries, and, where it stops there, what its head has become.
#[derive(Clone, Copy)]
pub struct Turn {
    pub walk: Walk,
    pub left: Option<Event>,
}

impl Turn {
    // The head stays: as it is, or as the step that it became.
    fn stop(walk: Walk, head: Event) -> Self
        ensures { result ≡ stopped_with walk head }
    {
        Turn {
            walk,
            left: Some(head),
        }
    }

    // The head is consumed, with its end and the value there.
    fn consume(walk: Walk, time: f64, value: f32) -> Self
        requires { walk.finished < 2 ^ 32 }
        ensures { result ≡ went_on_with (consumed_with time value walk) }
    {
        Turn {
            walk: walk.consumed(time, value),
            left: None,
        }
    }
}

// ---- what the bodies share

// Time 0 becomes the block time.
#[tactic(auto, unfolding(rules::specs::Walk::step_time, rules::specs::Numbers::is_zero))]
fn step_time(infos: BlockInfos, time: f64) -> f64
    ensures { result ≡ step_time infos time }
{
    if time == 0.0 { infos.time } else { time }
}

// The last event; with none, one made from block time and intrinsic value.
#[tactic(auto, unfolding(rules::specs::Walk::last_or))]
fn start_of(infos: BlockInfos, walk: Walk) -> Finished
    ensures { result ≡ last_or infos walk.intrinsic walk.last }
{
    walk.last.unwrap_or(Finished {
        time: infos.time,
        value: walk.intrinsic,
    })
}

// Whether an exponential ramp can follow a ratio: finite and above 0.
#[tactic(auto, unfolding(rules::specs::Samples::is_ratio))]
fn is_ratio(ratio: f32) -> bool
    ensures { result ≡ is_ratio ratio }
{
    floats::is_finite(ratio) && floats::is_positive(ratio)
}

// Where the next event ends a target.
#[tactic(auto, unfolding(rules::specs::Walk::end_by_next))]
fn end_by_next(infos: BlockInfos, time: f64, next: Option<Event>) -> Option<f64>
    ensures { result ≡ end_by_next infos time next }
{
    let Some(event) = next else {
        return None;
    };
    if timeline::is_ramp(event) {
        return Some(floats::later_of(infos.time, time));
    }
    let end = timeline::filed_under(event);
    if end < infos.next { Some(end) } else { None }
}

// A hold time in the block replaces that end.
#[tactic(auto, unfolding(rules::specs::Walk::end_by_hold))]
fn end_by_hold(infos: BlockInfos, hold: Option<f64>, end: Option<f64>) -> Option<f64>
    ensures { result ≡ end_by_hold infos hold end }
{
    match hold {
        Some(c) if c < infos.next => hold,
        _ => end,
    }
}

// Whether a value is so near a target that it becomes it.
fn snaps(target: f32, value: f32) -> bool
    ensures { result ≡ snaps_to target value }
{
    floats::magnitude(target - value) < 1e-10
}

// What a ramp or a curve does behind its fill: with its end in a later block it stops, with its value at the next one; else it is consumed, with its own value or, held,
// with the one there.
fn ramp_end<F: Fn(f64) -> f32>(
    infos: BlockInfos,
    walk: Walk,
    head: Event,
    end_time: f64,
    hold: Option<f64>,
    value: f32,
    sample: F,
) -> Turn
    requires { F.IsAlwaysCallable sample × (walk.finished < 2 ^ 32) }
    ensures { (s : Float → Float) → ((t v : Float) → F.post sample t v → v ≡ s t) → result ≡ ended_at infos walk head end_time hold value s }
{
    if end_time >= infos.next {
        let at_next = sample(infos.next);
        return Turn::stop(walk.with_intrinsic(at_next), head);
    }
    let at_end = match hold {
        None => value,
        Some(_) => sample(end_time),
    };
    Turn::consume(walk, end_time, at_end)
}

// ---- the five bodies: with the Rust's parameters, and so no struct for block, walk and buffer

pub fn compute_set_value_automation(
    infos: BlockInfos,
    walk: Walk,
    buffer: &mut [f32],
    value: f32,
    time: f64,
) -> Turn
    requires { Ready infos walk buffer.old }
    ensures { Turns buffer.old [] (step_turn infos (walk_as walk buffer.old) value time) result buffer.new }
{
    let end_time = step_time(infos, time);
    let end_index = samples::end_place_of(infos, end_time);
    let filled = fills::fill_value(infos, buffer, walk.filled, end_index, walk.intrinsic);
    let w = walk.with_filled(filled);
    let head = Event::Step { value, time };
    if end_time > infos.next {
        return Turn::stop(w, head);
    }
    Turn::consume(w, end_time, value)
}

pub fn compute_linear_ramp_automation(
    infos: BlockInfos,
    walk: Walk,
    buffer: &mut [f32],
    value: f32,
    time: f64,
    hold: Option<f64>,
) -> Turn
    requires { Ready infos walk buffer.old }
    ensures { Turns buffer.old [] (linear_turn infos (walk_as walk buffer.old) (alone (Event.Linear value time hold)) value time hold) result buffer.new }
{
    let last_event = start_of(infos, walk);
    // of the ramp as declared, so that a hold keeps its slope
    let duration = time - last_event.time;
    let end_time = hold_or(hold, time);
    let end_index = samples::end_place_of(infos, end_time);
    let filled = fills::fill_linear_ramp(
        infos,
        buffer,
        walk.filled,
        end_index,
        last_event,
        value,
        duration,
    );
    let w = walk.with_last(last_event).with_filled(filled);
    let head = Event::Linear { value, time, hold };
    ramp_end(infos, w, head, end_time, hold, value, |t| {
        samples::linear_value(last_event, value, duration, t)
    })
}

// An exponential ramp that has a ratio: it goes on or ends as ramps do.
fn exponential_span(
    infos: BlockInfos,
    walk: Walk,
    buffer: &mut [f32],
    from: Finished,
    value: f32,
    time: f64,
    hold: Option<f64>,
    ratio: f32,
) -> Turn
    requires { Ready infos walk buffer.old }
    ensures { Turns buffer.old [] (span_turn infos (walk_as walk buffer.old) (alone (Event.Exponential value time hold)) time value hold (ramp_sample value (sub binary64 time from.time) (exponential_at from.time (sub binary64 time from.time) from.value (ratio_log ratio)))) result buffer.new }
{
    let duration = time - from.time;
    let log = samples::ratio_log(ratio);
    let end_time = hold_or(hold, time);
    let end_index = samples::end_place_of(infos, end_time);
    let filled = fills::fill_exponential_ramp(
        infos,
        buffer,
        walk.filled,
        end_index,
        from,
        value,
        duration,
        log,
    );
    let w = walk.with_filled(filled);
    let head = Event::Exponential { value, time, hold };
    ramp_end(infos, w, head, end_time, hold, value, |t| {
        samples::exponential_value(from, value, duration, log, t)
    })
}

pub fn compute_exponential_ramp_automation(
    infos: BlockInfos,
    walk: Walk,
    buffer: &mut [f32],
    value: f32,
    time: f64,
    hold: Option<f64>,
) -> Turn
    requires { Ready infos walk buffer.old × (walk.steps < 2 ^ 32) × (walk.turned < 2 ^ 32) }
    ensures { Turns buffer.old [] (exponential_turn infos (walk_as walk buffer.old) (alone (Event.Exponential value time hold)) value time hold) result buffer.new }
{
    let last_event = start_of(infos, walk);
    let w = walk.with_last(last_event);
    let ratio = value / last_event.value;
    // no ramp goes there: the event becomes a step, which is the walk's next head
    if !is_ratio(ratio) {
        let end_time = hold_or(hold, time);
        return compute_set_value_automation(infos, w.turned_to_step(), buffer, value, end_time);
    }
    exponential_span(infos, w, buffer, last_event, value, time, hold, ratio)
}

// A target that does not end in the block, with its value at the next one: where that is near the target it becomes a step there.
fn target_left(
    infos: BlockInfos,
    walk: Walk,
    buffer: &mut [f32],
    head: Event,
    target: f32,
    value: f32,
) -> Turn
    requires { walk.filled ≤ length buffer.old }
    ensures { Turns buffer.old [] (target_left infos (walk_as walk buffer.old) (alone head) target value) result buffer.new }
{
    if !snaps(target, value) {
        return Turn::stop(walk.with_intrinsic(value), head);
    }
    fills::flush(buffer, walk.filled, target);
    let step = Event::Step {
        value: target,
        time: infos.next,
    };
    Turn::stop(walk.with_intrinsic(target), step)
}

// A target that has begun, from `from` on; `ended` is where it ends, if it does in the block.
fn target_run(
    infos: BlockInfos,
    walk: Walk,
    buffer: &mut [f32],
    head: Event,
    from: f32,
    value: f32,
    time: f64,
    constant: f64,
    ended: Option<f64>,
) -> Turn
    requires { Ready infos walk buffer.old }
    ensures { Turns buffer.old [] (target_run infos (walk_as walk buffer.old) (alone head) value (from_start time walk.intrinsic (target_sample from value time constant)) ended) result buffer.new }
{
    let end_time = hold_or(ended, infos.next);
    let end_index = samples::end_place_of(infos, end_time);
    let intrinsic = walk.intrinsic;
    let faded = fills::fill_target(
        infos,
        buffer,
        walk.filled,
        end_index,
        time,
        intrinsic,
        from,
        value,
        constant,
        end_time,
    );
    let w = walk.with_filled(faded.filled);
    let at_end = faded.value;
    let Some(_) = ended else {
        return target_left(infos, w, buffer, head, value, at_end);
    };
    Turn::consume(w, end_time, at_end)
}

// `next` is the event behind the head.
pub fn compute_set_target_automation(
    infos: BlockInfos,
    walk: Walk,
    buffer: &mut [f32],
    value: f32,
    time: f64,
    constant: f64,
    hold: Option<f64>,
    next: Option<Event>,
) -> Turn
    requires { Ready infos walk buffer.old }
    ensures { Turns buffer.old [] (target_turn infos (walk_as walk buffer.old) (alone (Event.Target value time constant hold)) value time constant hold next) result buffer.new }
{
    let last_event = start_of(infos, walk);
    let w = walk.with_last(last_event);
    let head = Event::Target {
        value,
        time,
        constant,
        hold,
    };
    if time > infos.next {
        return Turn::stop(w, head);
    }
    let ended = end_by_hold(infos, hold, end_by_next(infos, time, next));
    let from = last_event.value;
    target_run(infos, w, buffer, head, from, value, time, constant, ended)
}

// A curve that has begun: it goes on or ends as ramps do.
fn curve_span(
    infos: BlockInfos,
    walk: Walk,
    buffer: &mut [f32],
    head: Event,
    start: f64,
    duration: f64,
    hold: Option<f64>,
    values: &[f32],
) -> Turn
    requires { Ready infos walk buffer.old × (2 ≤ length values.now) × (length values.now ≤ store_length) }
    ensures { Turns buffer.old values.now (span_turn infos (walk_as walk buffer.old) (waiting_as head values.now) (add binary64 start duration) (last_number values.now) hold (from_start start walk.intrinsic (curve_sample values.now start duration))) result buffer.new }
{
    let end_time = hold_or(hold, start + duration);
    let end_index = samples::end_place_of(infos, end_time);
    let intrinsic = walk.intrinsic;
    let filled = fills::fill_curve(
        infos,
        buffer,
        walk.filled,
        end_index,
        start,
        duration,
        intrinsic,
        values,
    );
    let w = walk.with_filled(filled);
    let last = values[values.len() - 1];
    ramp_end(infos, w, head, end_time, hold, last, |t| {
        fills::curve_value(start, intrinsic, duration, values, t)
    })
}

// `values` are the curve's own numbers.
pub fn compute_set_value_curve_automation(
    infos: BlockInfos,
    walk: Walk,
    buffer: &mut [f32],
    start: f64,
    duration: f64,
    hold: Option<f64>,
    values: &[f32],
) -> Turn
    requires { Ready infos walk buffer.old × (2 ≤ length values.now) × (length values.now ≤ store_length) }
    ensures { Turns buffer.old values.now (curve_turn infos (walk_as walk buffer.old) (waiting_as (Event.Curve start duration (length values.now) hold) values.now) start duration hold) result buffer.new }
{
    let head = Event::Curve {
        start,
        duration,
        len: values.len(),
        hold,
    };
    if start > infos.next {
        return Turn::stop(walk, head);
    }
    curve_span(infos, walk, buffer, head, start, duration, hold, values)
}

// ---- the walk

// What the head does: its own body. `next` is the event behind it, `values` its numbers, none for an event that is no curve.
fn compute_event(
    infos: BlockInfos,
    walk: Walk,
    buffer: &mut [f32],
    event: Event,
    next: Option<Event>,
    values: &[f32],
) -> Turn
    requires { Ready infos walk buffer.old × (walk.steps < 2 ^ 32) × (walk.turned < 2 ^ 32) × Numbered event values.now }
    ensures { Turns buffer.old values.now (turn_of infos (walk_as walk buffer.old) (waiting_as event values.now) next event) result buffer.new }
{
    match event {
        Event::Step { value, time } => {
            compute_set_value_automation(infos, walk, buffer, value, time)
        }
        Event::Linear { value, time, hold } => {
            compute_linear_ramp_automation(infos, walk, buffer, value, time, hold)
        }
        Event::Exponential { value, time, hold } => {
            compute_exponential_ramp_automation(infos, walk, buffer, value, time, hold)
        }
        Event::Target {
            value,
            time,
            constant,
            hold,
        } => compute_set_target_automation(infos, walk, buffer, value, time, constant, hold, next),
        Event::Curve {
            start,
            duration,
            hold,
            ..
        } => compute_set_value_curve_automation(infos, walk, buffer, start, duration, hold, values),
    }
}

// A head, taken: one step, with the event behind it and its own numbers of the store, which begin at `offset`.
fn take_head(
    infos: BlockInfos,
    walk: Walk,
    buffer: &mut [f32],
    event: Event,
    next: Option<Event>,
    store: &[f32],
    offset: usize,
) -> Turn
    requires { Ready infos walk buffer.old × (walk.steps < 2 ^ 31) × (walk.turned < 2 ^ 32) × (offset + length_of event ≤ length store.now) × Numbered event (numbers_at store.now offset event) }
    ensures { Turns buffer.old (numbers_at store.now offset event) (turn infos (walk_as walk buffer.old) (waiting_as event (numbers_at store.now offset event)) next) result buffer.new }
{
    let past = offset + timeline::length_of(event);
    let values = &store[offset..past];
    compute_event(infos, walk.counted(), buffer, event, next, values)
}

// A walk before its first head: at K-rate the block's one value is the intrinsic one.
fn begin(infos: BlockInfos, intrinsic: f32, last: Option<Finished>, buffer: &mut [f32]) -> Walk
    requires { 0 < length buffer.old }
    ensures { Begins infos intrinsic last buffer.old result buffer.new }
{
    let rate = infos.rate;
    let filled = match rate {
        AutomationRate::A => 0usize,
        AutomationRate::K => {
            buffer[0] = intrinsic;
            1usize
        }
    };
    Walk {
        intrinsic,
        last,
        filled,
        steps: 0,
        finished: 0,
        turned: 0,
    }
}

// What a walk leaves: what it carried, how many heads are finished, and what the head behind them has become, if one waits.
#[derive(Clone, Copy)]
pub struct Walked {
    pub walk: Walk,
    pub at: usize,
    pub head: Option<Event>,
}

// Places left when a walk stops take the intrinsic value.
fn end(infos: BlockInfos, walk: Walk, buffer: &mut [f32], at: usize, head: Option<Event>) -> Walked
    requires { Room walk.filled infos.count buffer.old }
    ensures { Ends infos walk buffer.old at head result buffer.new }
{
    let filled = fills::fill_value(infos, buffer, walk.filled, infos.count, walk.intrinsic);
    Walked {
        walk: walk.with_filled(filled),
        at,
        head,
    }
}

// The heads in turn, from the intrinsic value and the last event on, into a lent buffer.
pub fn compute_buffer(
    infos: BlockInfos,
    intrinsic: f32,
    last: Option<Finished>,
    buffer: &mut [f32],
    timeline: AudioParamEventTimeline,
    store: &[f32],
) -> Walked
    requires { Walkable infos timeline buffer.old store.now }
    ensures { Walks infos (walk_from intrinsic last (values_before infos.rate intrinsic) 0) (waiting timeline) store.now buffer.old result buffer.new }
{
    let mut walk = begin(infos, intrinsic, last, buffer);
    let mut offset = 0;
    // the slots themselves: a call with the whole queue would copy it for each head
    let heads = &timeline.slots[..timeline.len];
    for (at, head) in heads.iter().enumerate() {
        let next = heads.get(at + 1).map(|slot| slot.event);
        let turn = take_head(infos, walk, buffer, head.event, next, store, offset);
        walk = turn.walk;
        if turn.left.is_some() {
            return end(infos, walk, buffer, at, turn.left);
        }
        offset += timeline::length_of(head.event);
    }
    end(infos, walk.counted(), buffer, heads.len(), None)
}
