// The plain renderer: a slow engine to be read, with docs/RULES.md beside it. For each place of a block it starts again from the parameter as it was before the
// block and finds that place's value alone, by a walk over the whole block that keeps one number. From the top: the block, a look for one place of it, the heads
// that the look walks through, and how the value of a head goes with time.
#![tactic(auto)]

ghost use Rattle.std.specs.Prelude.{◌≡◌, ℕ, ◌-◌, ◌≤◌, ◌<◌, ◌^◌};
ghost use Rattle.rules.specs.declared.BlockInfos.{BlockInfos};
ghost use Rattle.rules.specs.Numbers.{time_at};
ghost use Rattle.rules.specs.Walk as rule;
ghost use Rattle.timeline.specs.Heads.{waiting_as, Numbered};
ghost use Rattle.block.specs.Asked.{asked, written};
ghost use Rattle.param.specs.Param.{SoundParam, param_of};
ghost use Rattle.param.specs.Processed.{Processes, Playable};
ghost use Rattle.plain.specs.Seen.{seen, seen_turn, sample_of, sample_seen, ran, begun_turn, Follows, time_after, unwalked, counted_as, started_as, ended_as, block_of, Lookable, Walks, Looks, Carries};

use param::{AudioParam, Processed};
use rules::{AutomationRate, BlockInfos, Event, Finished};
use samples::end_place_of;
use timeline::{filed_under, hold_or, is_ramp};

// ---- the block

// One block of `count` samples from `block_time` on, as by `AudioParam::process`. A refused block changes nothing.
pub fn process(
    param: AudioParam,
    block_time: f64,
    period: f64,
    count: usize,
    input: &[f32],
    output: &mut [f32],
    store: &mut [f32],
) -> Processed
    requires { SoundParam param }
    ensures { Processes param store.old (asked block_time period count input.now output.old) result output.new store.new }
{
    let verdict = refusals::block::verdict(
        param::ceiling_of(param.edition()),
        param.last_block_time(),
        block_time,
        period,
        count,
        input.len(),
        output.len(),
        store.len() == AudioParam::STORE,
    );
    let Ok(()) = verdict else {
        return param.refused_block(verdict);
    };
    let infos = block::infos_of(param.automation_rate(), block_time, period, count);
    render(param, infos, input, output, &store[..]);
    carry_on(param, infos, input.len(), store)
}

// Each sample is the value that a look finds at its place, mixed with the input there. At K-rate a look is for the first place, whichever is asked for. An input of
// length 0 is silence.
fn render(param: AudioParam, infos: BlockInfos, input: &[f32], output: &mut [f32], store: &[f32])
    requires { Playable param infos input.now output.old store.now }
    ensures { output.new ≡ written (param_of param).bounds infos input.now (block_of param infos store.now).walk.values output.old }
{
    for place in 0..infos.count {
        let looked = look_at(param, infos, store, place);
        let look = looked.look;
        let at = look.place;
        let mut added = 0.0f32;
        if 0 < input.len() {
            added = input[at];
        }
        output[place] = mix::mixed_value(param.bounds(), added, look.found);
    }
}

// What the block says and leaves: one look tells it, for whichever place. The steps are those of its one walk. The finished events go, with their numbers.
fn carry_on(param: AudioParam, infos: BlockInfos, input: usize, store: &mut [f32]) -> Processed
    requires { Lookable param infos store.old }
    ensures { Carries param infos input store.old result store.new }
{
    let looked = look_at(param, infos, &store[..], 0);
    let look = looked.look;
    let last = look.last;
    let head = looked.head;
    let rests = block::rests_for(infos, param.event_at(0));
    let played = param::process::Played {
        intrinsic: look.intrinsic,
        last,
        at: looked.at,
        head,
        steps: look.steps,
        one: block::says_one(param.automation_rate(), rests, input),
    };
    param.leaving(infos, played, store)
}

// ---- a look for one place

// What a look carries from head to head.
#[derive(Clone, Copy)]
pub struct Look {
    // the block
    pub infos: BlockInfos,
    // the place that is looked for, and its value, once it is filled
    pub place: usize,
    pub found: f32,
    // how many places are filled
    pub filled: usize,
    // the intrinsic value, and the last finished event
    pub intrinsic: f32,
    pub last: Option<Finished>,
    // how many heads were taken
    pub steps: usize,
}

// A look at its end: how many events are finished, and what the one behind them has become.
#[derive(Clone, Copy)]
pub struct Looked {
    pub look: Look,
    pub at: usize,
    pub head: Option<Event>,
}

// At K-rate the block's one value is the intrinsic value before the walk, and the walk writes no samples: for the look all places are filled. A block that no event
// reaches into has the intrinsic value at each place, and takes one step. A walk goes on behind the place that is looked for: a target that snaps later in the block
// turns a subnormal sample before it to 0.
fn look_at(param: AudioParam, infos: BlockInfos, store: &[f32], place: usize) -> Looked
    requires { Lookable param infos store.now × (place < infos.count) }
    ensures { Looks param infos store.now place result }
{
    let intrinsic = param.intrinsic_value();
    let last = param.last_event();
    let mut look = Look {
        infos,
        place: 0,
        found: intrinsic,
        filled: infos.count,
        intrinsic,
        last,
        steps: 0,
    };
    let rate = infos.rate;
    if let AutomationRate::A = rate {
        look.place = place;
        look.found = 0.0;
        look.filled = 0;
    }
    if block::rests_for(infos, param.event_at(0)) {
        return ended(counted(look), 0, None);
    }
    walk(look, param, store)
}

// Places left when a walk stops take the intrinsic value.
fn ended(stopped: Look, at: usize, head: Option<Event>) -> Looked
    ensures { result ≡ ended_as stopped at head }
{
    let mut look = stopped;
    if look.filled <= look.place {
        look.found = look.intrinsic;
    }
    Looked { look, at, head }
}

// The walk takes heads in turn, each one step; finding the queue empty is one step. A head has its own numbers of the store: none, if it is no curve.
fn walk(begun: Look, param: AudioParam, store: &[f32]) -> Looked
    requires { Lookable param begun.infos store.now × (begun.place < begun.infos.count) × (begun ≡ seen begun.infos begun.place (unwalked begun)) }
    ensures { Walks begun.infos begun.place (unwalked begun) (param_of param).queue store.now result }
{
    let mut look = begun;
    let waiting = param.timeline();
    for (at, slot) in waiting.slots[..waiting.len].iter().enumerate() {
        let event = slot.event;
        let from = param.offset_of(at);
        let to = from + timeline::length_of(event);
        let next = param.event_at(at + 1);
        let turn = take_head(counted(look), event, &store[from..to], next);
        match turn {
            Turn::Stop(stopped, left) => return ended(stopped, at, Some(left)),
            Turn::On(gone) => look = gone,
        }
    }
    ended(counted(look), waiting.len, None)
}

// One head more.
fn counted(look: Look) -> Look
    requires { look.steps < 2 ^ 32 }
    ensures { result ≡ counted_as look }
{
    let steps = look.steps + 1;
    Look { steps, ..look }
}

// ---- the heads

// What a head does: it stops the walk and waits on, as it was or as what it has become; or it is consumed, and the walk goes on.
// No Result: neither side is a refusal, and each has a value of its own.
#[derive(Clone, Copy)]
pub enum Turn {
    Stop(Look, Event),
    On(Look),
}

// The head's own rule, with `next` behind it. An exponential ramp whose ratio, end value / start value, is not finite and above 0 becomes a step to its end value at
// its end. A curve whose start is after the next block time stops; else its end is its start plus its duration, with its last number.
fn take_head(look: Look, event: Event, numbers: &[f32], next: Option<Event>) -> Turn
    requires { (look.infos.count ≤ 1024) × (look.steps < 2 ^ 32) × Numbered event numbers.now }
    ensures { (f : BlockInfos) (n : ℕ) (w : rule.Walk) → look ≡ seen f n w → result ≡ seen_turn f n (rule.turn_of f w (waiting_as event numbers.now) next event) }
{
    // of a target or a curve
    let start = filed_under(event);
    match event {
        Event::Step { value, time } => step(look, numbers, value, time),
        Event::Linear { value, time, hold } => {
            span(started(look), event, numbers, time, value, hold)
        }
        Event::Exponential { value, time, hold } => {
            let from = start_of(look);
            let ratio = value / from.value;
            if floats::is_finite(ratio) & floats::is_positive(ratio) {
                return span(started(look), event, numbers, time, value, hold);
            }
            // the walk's next head
            step(started(counted(look)), numbers, value, hold_or(hold, time))
        }
        Event::Target { value, hold, .. } => {
            let end = target_end(look.infos, start, hold, next);
            target(started(look), event, numbers, value, end)
        }
        Event::Curve { duration, hold, .. } => {
            if start > look.infos.next {
                return Turn::Stop(look, event);
            }
            let last = numbers[numbers.len() - 1];
            span(look, event, numbers, start + duration, last, hold)
        }
    }
}

// Ramps and targets start from the last finished event. With none, one is made from block time and intrinsic value, and kept.
fn started(look: Look) -> Look
    ensures { result ≡ started_as look }
{
    let last = Some(start_of(look));
    Look { last, ..look }
}

#[tactic(auto, unfolding(rules::specs::Walk::last_or))]
fn start_of(look: Look) -> Finished
    ensures { result ≡ rule.last_or look.infos look.intrinsic look.last }
{
    look.last.unwrap_or(Finished {
        time: look.infos.time,
        value: look.intrinsic,
    })
}

// Step: time 0 becomes the block time. Fill up to its end place. If its time is greater than the next block time, stop; else consume it.
fn step(look: Look, numbers: &[f32], value: f32, time: f64) -> Turn
    requires { look.infos.count ≤ 1024 }
    ensures { (f : BlockInfos) (n : ℕ) (w : rule.Walk) → look ≡ seen f n w → result ≡ seen_turn f n (rule.step_turn f w value time) }
{
    let end = if time == 0.0 { look.infos.time } else { time };
    let event = Event::Step { value, time };
    run(look, event, numbers, end, end > look.infos.next, value)
}

// Ramps and curves: the end is the hold time, else `time`; held, they end with the value there, else with `value`. An end at or behind the next block time: stop.
fn span(look: Look, event: Event, numbers: &[f32], time: f64, value: f32, hold: Option<f64>) -> Turn
    requires { (look.infos.count ≤ 1024) × Follows event numbers.now }
    ensures { (f : BlockInfos) (n : ℕ) (w : rule.Walk) → look ≡ seen f n w → result ≡ seen_turn f n (rule.span_turn f w (waiting_as event numbers.now) time value hold (sample_of event numbers.now f w)) }
{
    let end = hold_or(hold, time);
    let at_end = match hold {
        None => value,
        Some(c) => value_at(look, event, numbers, c),
    };
    run(look, event, numbers, end, end >= look.infos.next, at_end)
}

// Fill to the end place. A head that stops leaves its value at the next block time as the intrinsic one. To consume a head makes its end and value the last event,
// its value the intrinsic one.
fn run(look: Look, event: Event, numbers: &[f32], end: f64, stops: bool, value: f32) -> Turn
    requires { (look.infos.count ≤ 1024) × Follows event numbers.now }
    ensures { (f : BlockInfos) (n : ℕ) (w : rule.Walk) → look ≡ seen f n w → result ≡ seen_turn f n (ran f w (waiting_as event numbers.now) end stops value (sample_of event numbers.now f w)) }
{
    let mut filled = fill(look, end_place_of(look.infos, end), event, numbers);
    if stops {
        filled.intrinsic = value_at(look, event, numbers, look.infos.next);
        return Turn::Stop(filled, event);
    }
    filled.intrinsic = value;
    let last = Some(Finished { time: end, value });
    Turn::On(Look { last, ..filled })
}

// Target: if its start is after the next block time, stop. Ended in the block: consume it, with its end and the value there. Not ended: it stops, and with a value at
// the next block time that is within 1e-10 of the target it snaps: it becomes a step to the target then, and subnormal samples become 0 where the target is 0.
fn target(look: Look, event: Event, numbers: &[f32], value: f32, end: Option<f64>) -> Turn
    requires { (look.infos.count ≤ 1024) × Follows event numbers.now }
    ensures { (f : BlockInfos) (n : ℕ) (w : rule.Walk) → look ≡ seen f n w → result ≡ seen_turn f n (begun_turn f w (waiting_as event numbers.now) value end (sample_of event numbers.now f w)) }
{
    let next = look.infos.next;
    if filed_under(event) > next {
        return Turn::Stop(look, event);
    }
    if let Some(end) = end {
        let at_end = value_at(look, event, numbers, end);
        return run(look, event, numbers, end, false, at_end);
    }
    let at_next = value_at(look, event, numbers, next);
    if !(floats::magnitude(value - at_next) < 1e-10) {
        return run(look, event, numbers, next, true, at_next);
    }
    let mut filled = fill(look, end_place_of(look.infos, next), event, numbers);
    // one that was found at an earlier head, too
    if value == 0.0 && floats::is_subnormal(filled.found) {
        filled.found = 0.0;
    }
    filled.intrinsic = value;
    Turn::Stop(filled, Event::Step { value, time: next })
}

// Where a target ends, if it does in the block: at a hold time below the next block time; else, if a ramp is next, at the later of block time and its start; else at
// the next event's time, if that is below the next block time.
fn target_end(infos: BlockInfos, start: f64, hold: Option<f64>, next: Option<Event>) -> Option<f64>
    ensures { result ≡ rule.end_by_hold infos hold (rule.end_by_next infos start next) }
{
    if hold_or(hold, infos.next) < infos.next {
        return hold;
    }
    let Some(event) = next else {
        return None;
    };
    if is_ramp(event) {
        return Some(floats::later_of(infos.time, start));
    }
    if filed_under(event) < infos.next {
        return Some(filed_under(event));
    }
    None
}

// ---- how the value of a head goes with time

// Up to a step it is the intrinsic value. A ramp goes from the last event on, its duration being to its own time, held or not; one of no length has its end value
// throughout. Before the start of a target or a curve it is the intrinsic value.
fn value_at(look: Look, event: Event, numbers: &[f32], at: f64) -> f32
    requires { Follows event numbers.now }
    ensures { result ≡ sample_seen event numbers.now look at }
{
    let start = filed_under(event);
    if !is_ramp(event) & (at < start) {
        return look.intrinsic;
    }
    let from = start_of(look);
    match event {
        Event::Step { .. } => look.intrinsic,
        Event::Linear { value, time, .. } => {
            samples::linear_value(from, value, time - from.time, at)
        }
        Event::Exponential { value, time, .. } => {
            let log = samples::ratio_log(value / from.value);
            samples::exponential_value(from, value, time - from.time, log, at)
        }
        Event::Target {
            value,
            constant,
            ..
        } => samples::compute_set_target_sample(start, constant, value, from.value - value, at),
        Event::Curve { duration, .. } => {
            samples::compute_set_value_curve_sample(start, duration, numbers, at)
        }
    }
}

// The places up to `to` are filled with the head's samples, of which the look keeps the one at its place.
fn fill(look: Look, to: usize, event: Event, numbers: &[f32]) -> Look
    requires { (to ≤ look.infos.count) × (look.infos.count ≤ 1024) × Follows event numbers.now }
    ensures { (f : BlockInfos) (n : ℕ) (w : rule.Walk) → look ≡ seen f n w → result ≡ seen f n (rule.fill f to (sample_of event numbers.now f w) w) }
{
    if to <= look.filled {
        return look;
    }
    let mut filled = look;
    filled.filled = to;
    if (look.filled <= look.place) & (look.place < to) {
        let time = sample_time(look.infos, look.filled, look.place);
        filled.found = value_at(look, event, numbers, time);
    }
    filled
}

// The first sample time of a run is fused(first place × period + block time); each next one adds the period.
fn sample_time(infos: BlockInfos, first: usize, place: usize) -> f64
    requires { first ≤ 1024 }
    ensures { result ≡ time_after infos.dt (place - first) (time_at infos first) }
{
    let mut time = rounding::fused64(first as u64, infos.dt, infos.time);
    for _ in first..place {
        time += infos.dt;
    }
    time
}
