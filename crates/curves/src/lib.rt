// The numbers of the waiting curves, end to end in queue order in the part of a lent store that is the parameter's.
#![tactic(auto)]

ghost use Rattle.std.specs.Prelude.{◌≡◌, ◌++◌, ℕ, ◌+◌, ◌-◌, ◌≤◌, ◌<◌, length, take, drop, replicate};
ghost use Rattle.std.proofs.Math.Seq.{paste};
ghost use Rattle.rules.specs.Numbers.{most_events, plus_zero};
ghost use Rattle.rules.specs.Queue.{lengths_of, attached, those, inserted, cancelled, held};
ghost use Rattle.timeline.specs.Timeline.{Neat, waiting, is_kept};
ghost use Rattle.curves.specs.Curves.{moved, packed_in, Leaves, curve_of};

use rules::Event;
use timeline::AudioParamEventTimeline;

// Numbers go to a later place: from the last on. A loop of its own: std's copy within a slice becomes memmove here, and C's archive wants memcpy and memset alone.
fn move_up(part: &mut [f32], from: usize, to: usize, n: usize)
    requires { (from ≤ to) × (to + n ≤ length part.old) }
    ensures { part.new ≡ moved part.old from to n }
{
    let mut i = n;
    while 0 < i {
        i -= 1;
        part[to + i] = part[from + i];
    }
}

// A loop of its own, as move_up: std's copy from a slice becomes memmove here.
pub fn write(part: &mut [f32], at: usize, values: &[f32])
    requires { at + length values.now ≤ length part.old }
    ensures { part.new ≡ paste part.old at values.now (length values.now) }
{
    let mut i = 0usize;
    while i < values.len() {
        part[at + i] = values[i];
        i += 1;
    }
}

// What stands behind the numbers in use becomes 0.
pub fn zero_behind(part: &mut [f32], used: usize)
    requires { used ≤ length part.old }
    ensures { part.new ≡ take used part.old ++ replicate (length part.old - used) plus_zero }
{
    part[used..].fill(0.0);
}

// The numbers of the events that a cut at c leaves close up; the others' go.
fn cut(q: AudioParamEventTimeline, c: f64, equal: bool, part: &mut [f32])
    requires { Neat q × (lengths_of (waiting q) ≤ length part.old) }
    ensures { part.new ≡ packed_in (length part.old) (those (is_kept equal c) (attached (waiting q) part.old)) }
{
    let mut from = 0;
    let mut to = 0;
    for slot in &q.slots[..q.len] {
        let size = timeline::length_of(slot.event);
        if timeline::is_kept(slot.event, c, equal) {
            part.copy_within(from..from + size, to);
            to += size;
        }
        from += size;
    }
    zero_behind(part, to);
}

// A curve arrives: behind all events of equal or smaller time, its numbers between those of its neighbours.
pub fn insert(
    q: AudioParamEventTimeline,
    start: f64,
    duration: f64,
    values: &[f32],
    part: &mut [f32],
) -> AudioParamEventTimeline
    requires { Neat q × (q.len < most_events) × (lengths_of (waiting q) + length values.now ≤ length part.old) }
    ensures { Leaves result part.old part.new (inserted (curve_of start duration values.now) (attached (waiting q) part.old)) }
{
    let len = values.len();
    let used = q.lengths();
    let place = q.place_behind(start);
    let at = q.offset_of(place);
    move_up(part, at, at + len, used - at);
    write(part, at, values);
    zero_behind(part, used + len);
    let hold = None;
    q.put_at(
        place,
        Event::Curve {
            start,
            duration,
            len,
            hold,
        },
    )
}

// Cancel at c.
pub fn cancel(q: AudioParamEventTimeline, c: f64, part: &mut [f32]) -> AudioParamEventTimeline
    requires { Neat q × (lengths_of (waiting q) ≤ length part.old) }
    ensures { Leaves result part.old part.new (cancelled c (attached (waiting q) part.old)) }
{
    cut(q, c, false, part);
    q.retain(c, false)
}

// Cancel-and-hold at c.
pub fn hold(q: AudioParamEventTimeline, c: f64, part: &mut [f32]) -> AudioParamEventTimeline
    requires { Neat q × (lengths_of (waiting q) ≤ length part.old) }
    ensures { Leaves result part.old part.new (held c (attached (waiting q) part.old)) }
{
    cut(q, c, true, part);
    q.hold(c)
}

// The first n events are finished.
pub fn consume(q: AudioParamEventTimeline, n: usize, part: &mut [f32]) -> AudioParamEventTimeline
    requires { Neat q × (lengths_of (waiting q) ≤ length part.old) }
    ensures { Leaves result part.old part.new (drop n (attached (waiting q) part.old)) }
{
    // often all are: then nothing moves, and the queue need not be read
    let len = q.len;
    if len <= n {
        zero_behind(part, 0);
        return AudioParamEventTimeline::new();
    }
    let used = q.lengths();
    let from = q.offset_of(n);
    part.copy_within(from..used, 0);
    zero_behind(part, used - from);
    q.drop_heads(n)
}
