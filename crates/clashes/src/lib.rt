// What an event runs into that is refused by 11: a waiting curve, or an event that would be inside of it. And that in words.
#![tactic(auto)]

ghost use Rattle.std.specs.Prelude.{◌≡◌, ◌+◌, ◌≤◌, length};
ghost use Rattle.text.specs.Put.{Put};
ghost use Rattle.timeline.specs.Timeline.{waiting, Neat};
ghost use Rattle.clashes.specs.declared.Clash.TheVariants as Clash;
ghost use Rattle.clashes.specs.Clashes.{span_of, curve_in, event_in, covered_by, clash_of, clash_text};
ghost use Rattle.clashes.specs.Clashes as rule;

use calls::Call;
use decimal::write::put_time;
use floats::taken_time;
use replies::put_meaning;
use rules::Event;
use text::write::put_word;
use timeline::{AudioParamEventTimeline, curve_end, filed_under};

// What is in the way: a curve, from its start to its end, or an event, by the time that it is filed under.
#[derive(Clone, Copy)]
pub enum Clash {
    Curve { start: f64, end: f64 },
    Event { time: f64 },
}

// A curve, from its start to its end; no other event has times inside.
#[tactic(auto, unfolding(crate::specs::Clashes::span_of))]
fn span_of(e: Event) -> Option<Clash>
    ensures { result ≡ span_of e }
{
    match e {
        Event::Curve {
            start,
            duration,
            hold,
            ..
        } => Some(Clash::Curve {
            start,
            end: curve_end(start, duration, hold),
        }),
        _ => None,
    }
}

#[tactic(auto, unfolding(crate::specs::Clashes::curve_in))]
fn curve_in(head: Option<Event>) -> Option<Clash>
    ensures { result ≡ curve_in head }
{
    match head {
        None => None,
        Some(e) => span_of(e),
    }
}

#[tactic(auto, unfolding(crate::specs::Clashes::event_in))]
fn event_in(head: Option<Event>) -> Option<Clash>
    ensures { result ≡ event_in head }
{
    match head {
        None => None,
        Some(e) => Some(Clash::Event {
            time: filed_under(e),
        }),
    }
}

// The first waiting curve inside which the time lies.
fn covered_by(q: AudioParamEventTimeline, time: f64) -> Option<Clash>
    requires { Neat q }
    ensures { result ≡ covered_by (waiting q) time }
{
    curve_in(q.covering(taken_time(time)))
}

// The first waiting event that a curve would hold.
fn holding(q: AudioParamEventTimeline, time: f64, duration: f64) -> Option<Clash>
    requires { Neat q }
    ensures { result ≡ rule.holding (waiting q) time duration }
{
    let start = taken_time(time);
    let end = curve_end(start, duration, None);
    event_in(q.filed_inside(start, end))
}

// What the call runs into, these events waiting; a line that is not read runs into nothing.
pub fn clash_of(q: AudioParamEventTimeline, call: Option<Call>) -> Option<Clash>
    requires { Neat q }
    ensures { result ≡ clash_of (waiting q) call }
{
    let Some(call) = call else {
        return None;
    };
    match call {
        Call::Set { .. } => covered_by(q, 0.0),
        Call::Step { time, .. } => covered_by(q, time),
        Call::Linear { time, .. } => covered_by(q, time),
        Call::Exponential { time, .. } => covered_by(q, time),
        Call::Target { time, .. } => covered_by(q, time),
        Call::Curve {
            start,
            duration,
            ..
        } => covered_by(q, start).or(holding(q, start, duration)),
        // no other call is refused by 11
        _ => None,
    }
}

fn put_span(out: &mut [u8], at: usize, start: f64, end: f64) -> usize
    requires { at + 90 ≤ length out.old }
    ensures put { Put out.old at (clash_text (Some (Clash.Curve start end))) out.new result }
    ensures upper_bound { result ≤ at + 90 }
{
    let to = put_word(out, at, b": inside the curve from ");
    let to = put_time(out, to, start);
    let to = put_word(out, to, b" to ");
    put_time(out, to, end)
}

fn put_held(out: &mut [u8], at: usize, time: f64) -> usize
    requires { at + 90 ≤ length out.old }
    ensures put { Put out.old at (clash_text (Some (Clash.Event time))) out.new result }
    ensures upper_bound { result ≤ at + 90 }
{
    let to = put_word(out, at, b": the event at ");
    let to = put_time(out, to, time);
    put_word(out, to, b" would be inside this curve")
}

// What stands behind `refused 11`.
#[tactic(auto, unfolding(crate::specs::Clashes::clash_text))]
pub fn put_clash(out: &mut [u8], at: usize, clash: Option<Clash>) -> usize
    requires { at + 90 ≤ length out.old }
    ensures put { Put out.old at (clash_text clash) out.new result }
    ensures upper_bound { result ≤ at + 90 }
{
    match clash {
        None => put_meaning(out, at, 11),
        Some(Clash::Curve { start, end }) => put_span(out, at, start, end),
        Some(Clash::Event { time }) => put_held(out, at, time),
    }
}
