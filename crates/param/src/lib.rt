// One parameter: its constructor, and the calls that schedule and cancel its events.
#![tactic(auto)]

ghost use Rattle.std.specs.Prelude.{◌≡◌, cond, [], leb, length, take, drop};
ghost use Rattle.rules.specs.Queue.{lengths_of, any_covers, is_by, has_started, loses_head, loses_curve, returned, target_event};
ghost use Rattle.rules.specs.Refusals.{is_crossed};
ghost use Rattle.rules.specs.Numbers.{most_events, ceiling_of};
ghost use Rattle.rules.specs.Block.{fresh, edition_of, scheduled_as, set, step, linear, exponential, target, curve, cancel, hold};
ghost use Rattle.timeline.specs.Timeline.{made, first_of};
ghost use Rattle.param.specs.Param.{param_of, struct_of, outcome_of, SoundParam, HasRoom, unmade_by, answered_with, Makes, Answers, parts_of, Restores};

use floats::{is_zero, taken_time};
use refusals::sound::{are_block_times, has_played, is_last_clear};
use rules::{AutomationRate, Bounds, Edition, Event, Finished, Refusal};
use timeline::{AudioParamEventTimeline, curve_end, filed_under, goes_at, is_ramp};

mod taking; // taking.rt: events that can wait, from outside
pub mod process; // process.rt: the block

// `SoundParam` is no invariant: `bounds` to `last_block_end` ask nothing of their parameter.
#[derive(Clone, Copy)]
pub struct AudioParam {
    bounds: Bounds,
    rate: AutomationRate,
    edition: Edition,
    intrinsic: f32,
    timeline: AudioParamEventTimeline,
    // the time of the last answered block, and its end
    block: Option<f64>,
    end: Option<f64>,
    // the last finished event
    last: Option<Finished>,
}

// What a call says, and the parameter after it: a refused call gives it back, too.
#[derive(Clone, Copy)]
pub struct Outcome {
    pub verdict: Result<(), Refusal>,
    pub param: AudioParam,
}

// What a block says, and the parameter after it. `one` says that all its samples are one value.
#[derive(Clone, Copy)]
pub struct Processed {
    pub verdict: Result<(), Refusal>,
    pub param: AudioParam,
    pub steps: usize,
    pub current: f32,
    pub one: bool,
}

// The edition of a number that is one's.
pub fn edition_of(number: u64) -> Edition
    ensures { result ≡ edition_of number }
{
    if number == 2 {
        Edition::Second
    } else {
        Edition::First
    }
}

// How many samples a block can have under an edition.
pub fn ceiling_of(edition: Edition) -> usize
    ensures { result ≡ ceiling_of edition }
{
    match edition {
        Edition::First => AudioParam::COUNT,
        Edition::Second => AudioParam::LONG_COUNT,
    }
}

// A target with time constant 0 is a step.
#[tactic(auto, unfolding(rules::specs::Queue::target_event))]
fn target_event(value: f32, time: f64, constant: f64) -> Event
    ensures { result ≡ target_event value time constant }
{
    if is_zero(constant) {
        Event::Step { value, time }
    } else {
        Event::Target {
            value,
            time,
            constant,
            hold: None,
        }
    }
}

// Whether a time is at or before the last answered block's end.
#[tactic(auto, unfolding(rules::specs::Queue::is_by))]
fn is_by(end: Option<f64>, time: f64) -> bool
    ensures { result ≡ is_by end time }
{
    end.is_some_and(|end| time <= end)
}

// Whether the event is a curve that had started by the last answered block's end.
#[tactic(auto, unfolding(rules::specs::Queue::has_started))]
fn has_started(end: Option<f64>, e: Event) -> bool
    ensures { result ≡ has_started end e }
{
    match e {
        Event::Curve { start, .. } => is_by(end, start),
        _ => false,
    }
}

// Whether a cancel at c takes the head, and that is a ramp, or a curve that had started.
#[tactic(auto, unfolding(rules::specs::Queue::loses_head))]
fn loses_head(c: f64, end: Option<f64>, head: Option<Event>) -> bool
    ensures { result ≡ loses_head c end head }
{
    head.is_some_and(|e| goes_at(e, c) & (is_ramp(e) | has_started(end, e)))
}

// Whether a hold at c takes the head, and that is a curve that had started.
#[tactic(auto, unfolding(rules::specs::Queue::loses_curve))]
fn loses_curve(c: f64, end: Option<f64>, head: Option<Event>) -> bool
    ensures { result ≡ loses_curve c end head }
{
    head.is_some_and(|e| (c < filed_under(e)) & has_started(end, e))
}

// The intrinsic value, or the last event's where such a head is lost and there is one.
#[tactic(auto, unfolding(rules::specs::Queue::returned))]
fn value_after(lost: bool, last: Option<Finished>, value: f32) -> f32
    ensures { result ≡ cond lost (returned last value) value }
{
    if lost {
        last.map_or(value, |l| l.value)
    } else {
        value
    }
}

impl AudioParam {
    // How many events can wait.
    pub const EVENTS: usize = timeline::EVENTS;
    // How many numbers all waiting curves can have, and the curve store does.
    pub const STORE: usize = 4096;
    // How many samples a block can have under the first edition, and under the second.
    pub const COUNT: usize = 128;

    pub const LONG_COUNT: usize = 1024;

    // A parameter for which nothing waits, and no block is answered.
    fn fresh(bounds: Bounds, rate: AutomationRate, edition: Edition) -> AudioParam
        ensures { result ≡ struct_of (fresh bounds rate edition) }
    {
        AudioParam {
            bounds,
            rate,
            edition,
            intrinsic: bounds.default,
            timeline: AudioParamEventTimeline::new(),
            block: None,
            end: None,
            last: None,
        }
    }

    // Under the first edition.
    pub fn new(bounds: Bounds, rate: AutomationRate) -> Outcome
        ensures { Makes bounds rate 1 result }
    {
        AudioParam::with_edition(bounds, rate, 1)
    }

    // Under the edition of that number.
    pub fn with_edition(bounds: Bounds, rate: AutomationRate, edition: u64) -> Outcome
        ensures { Makes bounds rate edition result }
    {
        let verdict = refusals::making(bounds, edition);
        match verdict {
            Ok(()) => {
                let param = AudioParam::fresh(bounds, rate, edition_of(edition));
                Outcome { verdict, param }
            }
            Err(why) => AudioParam::refused(why),
        }
    }

    // What a refused make gives back: an empty A-rate parameter of the first edition with all numbers 0.
    fn refused(why: Refusal) -> Outcome
        ensures { result ≡ unmade_by why }
    {
        let zero = Bounds {
            min: 0.0,
            default: 0.0,
            max: 0.0,
        };
        let param = AudioParam::fresh(zero, AutomationRate::A, Edition::First);
        Outcome {
            verdict: Err(why),
            param,
        }
    }

    pub fn bounds(self) -> Bounds
        ensures { result ≡ (param_of self).bounds }
    {
        self.bounds
    }

    pub fn automation_rate(self) -> AutomationRate
        ensures { result ≡ (param_of self).rate }
    {
        self.rate
    }

    pub fn edition(self) -> Edition
        ensures { result ≡ (param_of self).edition }
    {
        self.edition
    }

    pub fn intrinsic_value(self) -> f32
        ensures { result ≡ (param_of self).intrinsic }
    {
        self.intrinsic
    }

    // The last finished event.
    pub fn last_event(self) -> Option<Finished>
        ensures { result ≡ (param_of self).last }
    {
        self.last
    }

    // The time of the last answered block.
    pub fn last_block_time(self) -> Option<f64>
        ensures { result ≡ (param_of self).last_block }
    {
        self.block
    }

    // The end of the last answered block: its next block time.
    pub fn last_block_end(self) -> Option<f64>
        ensures { result ≡ (param_of self).last_end }
    {
        self.end
    }

    // The waiting events, for one who reads many of them.
    pub fn timeline(self) -> AudioParamEventTimeline
        requires { SoundParam self }
        ensures { result ≡ made (param_of self).queue }
    {
        self.timeline
    }

    // How many events wait.
    pub fn len(self) -> usize
        requires { SoundParam self }
        ensures { result ≡ length (param_of self).queue }
    {
        self.timeline.len
    }

    // The event at a place of the queue, or that none waits there.
    pub fn event_at(self, i: usize) -> Option<Event>
        requires { SoundParam self }
        ensures { result ≡ first_of (drop i (param_of self).queue) }
    {
        let q = self.timeline;
        q.event_at(i)
    }

    // Where the numbers of the event at a place begin in the curve store.
    pub fn offset_of(self, i: usize) -> usize
        requires { SoundParam self }
        ensures { result ≡ lengths_of (take i (param_of self).queue) }
    {
        let q = self.timeline;
        q.offset_of(i)
    }

    // Whether as many events wait as can.
    fn is_full(self) -> bool
        requires { SoundParam self }
        ensures { result ≡ leb most_events (length (param_of self).queue) }
    {
        AudioParam::EVENTS <= self.timeline.len
    }

    // Whether a time lies inside a waiting curve.
    fn is_inside(self, time: f64) -> bool
        requires { SoundParam self }
        ensures { result ≡ any_covers time (param_of self).queue }
    {
        let q = self.timeline;
        q.any_covers(time)
    }

    // Whether a curve lies inside a waiting one, or has a waiting event's time inside.
    fn is_crossed(self, start: f64, duration: f64) -> bool
        requires { SoundParam self }
        ensures { result ≡ is_crossed (param_of self).queue start duration }
    {
        let q = self.timeline;
        let end = curve_end(start, duration, None);
        q.any_covers(start) | q.any_inside(start, end)
    }

    // The same parameter with another queue and intrinsic value: what an answered call gives back.
    fn answered(self, timeline: AudioParamEventTimeline, intrinsic: f32) -> Outcome
        ensures { result ≡ answered_with self timeline intrinsic }
    {
        let mut p = self;
        p.timeline = timeline;
        p.intrinsic = intrinsic;
        Outcome {
            verdict: Ok(()),
            param: p,
        }
    }

    // Where the verdict is that the call is answered, the event waits; else nothing changes.
    fn schedule(self, verdict: Result<(), Refusal>, e: Event) -> Outcome
        requires { SoundParam self × HasRoom verdict (param_of self).queue }
        ensures { result ≡ outcome_of (scheduled_as verdict (param_of self) [] e) }
    {
        match verdict {
            Ok(()) => {
                let q = self.timeline;
                self.answered(q.push(e), self.intrinsic)
            }
            Err(_) => Outcome {
                verdict,
                param: self,
            },
        }
    }

    // An immediate set: a step at time 0.
    pub fn set_value(self, value: f32) -> Outcome
        requires { SoundParam self }
        ensures { Answers self [] (set value) result [] }
    {
        self.set_value_at_time(value, 0.0)
    }

    pub fn set_value_at_time(self, value: f32, start_time: f64) -> Outcome
        requires { SoundParam self }
        ensures { Answers self [] (step value start_time) result [] }
    {
        let time = taken_time(start_time);
        let inside = self.is_inside(time);
        let verdict = refusals::value(inside, self.is_full(), value, start_time);
        self.schedule(verdict, Event::Step { value, time })
    }

    pub fn linear_ramp_to_value_at_time(self, value: f32, end_time: f64) -> Outcome
        requires { SoundParam self }
        ensures { Answers self [] (linear value end_time) result [] }
    {
        let time = taken_time(end_time);
        let inside = self.is_inside(time);
        let verdict = refusals::value(inside, self.is_full(), value, end_time);
        let hold = None;
        self.schedule(verdict, Event::Linear { value, time, hold })
    }

    pub fn exponential_ramp_to_value_at_time(self, value: f32, end_time: f64) -> Outcome
        requires { SoundParam self }
        ensures { Answers self [] (exponential value end_time) result [] }
    {
        let time = taken_time(end_time);
        let inside = self.is_inside(time);
        let verdict = refusals::exponential(inside, self.is_full(), value, end_time);
        let hold = None;
        self.schedule(verdict, Event::Exponential { value, time, hold })
    }

    pub fn set_target_at_time(self, value: f32, start_time: f64, time_constant: f64) -> Outcome
        requires { SoundParam self }
        ensures { Answers self [] (target value start_time time_constant) result [] }
    {
        let time = taken_time(start_time);
        let inside = self.is_inside(time);
        let full = self.is_full();
        let verdict = refusals::target(inside, full, value, start_time, time_constant);
        self.schedule(verdict, target_event(value, time, time_constant))
    }

    pub fn set_value_curve_at_time(
        self,
        values: &[f32],
        start_time: f64,
        duration: f64,
        store: &mut [f32],
    ) -> Outcome
        requires { SoundParam self }
        ensures { Answers self store.old (curve start_time duration values.now) result store.new }
    {
        let q = self.timeline;
        let start = taken_time(start_time);
        let crossed = self.is_crossed(start, duration);
        let full = self.is_full();
        let crowded = AudioParam::STORE - q.lengths() < values.len();
        let lent = store.len() == AudioParam::STORE;
        let verdict = refusals::curve(values, start_time, duration, crossed, full, crowded, lent);
        match verdict {
            Ok(()) => {
                let q = curves::insert(q, start, duration, values, store);
                self.answered(q, self.intrinsic)
            }
            Err(_) => {
                // Nothing is written: the store stays as it was lent.
                Outcome {
                    verdict,
                    param: self,
                }
            }
        }
    }

    // As the hold below. One function for both would take what is lost and the cut as closures, the second callable only on some queues and stores.
    pub fn cancel_scheduled_values(self, cancel_time: f64, store: &mut [f32]) -> Outcome
        requires { SoundParam self }
        ensures { Answers self store.old (cancel cancel_time) result store.new }
    {
        let verdict = refusals::cancel(cancel_time, store.len() == AudioParam::STORE);
        match verdict {
            Ok(()) => {
                let c = taken_time(cancel_time);
                let q = self.timeline;
                let end = self.end;
                let last = self.last;
                let value = value_after(loses_head(c, end, q.peek()), last, self.intrinsic);
                let q = curves::cancel(q, c, store);
                self.answered(q, value)
            }
            Err(_) => Outcome {
                verdict,
                param: self,
            },
        }
    }

    pub fn cancel_and_hold_at_time(self, cancel_time: f64, store: &mut [f32]) -> Outcome
        requires { SoundParam self }
        ensures { Answers self store.old (hold cancel_time) result store.new }
    {
        let verdict = refusals::cancel(cancel_time, store.len() == AudioParam::STORE);
        match verdict {
            Ok(()) => {
                let c = taken_time(cancel_time);
                let q = self.timeline;
                let end = self.end;
                let last = self.last;
                let value = value_after(loses_curve(c, end, q.peek()), last, self.intrinsic);
                let q = curves::hold(q, c, store);
                self.answered(q, value)
            }
            Err(_) => Outcome {
                verdict,
                param: self,
            },
        }
    }

    // A parameter of its parts, if they pass the tests of the invariant; else refused as bad bounds are. Slots behind the timeline's length do not count.
    pub fn from_parts(
        bounds: Bounds,
        rate: AutomationRate,
        edition: Edition,
        intrinsic: f32,
        timeline: AudioParamEventTimeline,
        block: Option<f64>,
        end: Option<f64>,
        last: Option<Finished>,
    ) -> Outcome
        ensures { Restores (parts_of bounds rate edition intrinsic timeline block end last) result }
    {
        if AudioParam::EVENTS < timeline.len {
            return AudioParam::refused(Refusal::Bounds);
        }
        let Some(timeline) = taking::take(timeline, has_played(block)) else {
            return AudioParam::refused(Refusal::Bounds);
        };
        let clear = is_last_clear(last) & are_block_times(block, end);
        if !(refusals::are_bounds(bounds) & clear) {
            return AudioParam::refused(Refusal::Bounds);
        }
        let param = AudioParam {
            bounds,
            rate,
            edition,
            intrinsic,
            timeline,
            block,
            end,
            last,
        };
        Outcome {
            verdict: Ok(()),
            param,
        }
    }
}
