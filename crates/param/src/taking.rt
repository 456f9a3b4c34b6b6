// Events from outside, taken as a queue.
ghost use Rattle.std.specs.Prelude.{◌≡◌, ◌≤◌};
ghost use Rattle.rules.specs.Numbers.{most_events};
ghost use Rattle.param.specs.Takes.{taken};

use crate::AudioParam;
use refusals::sound::{is_clear, is_due, reach_of};
use timeline::{AudioParamEventTimeline, filed_under, length_of};

// The queue in which the events of a timeline wait, if they pass the tests of the invariant. Its slots behind its length do not count; `played` says whether a block was
// answered.
pub fn take(q: AudioParamEventTimeline, played: bool) -> Option<AudioParamEventTimeline>
    requires { q.len ≤ most_events }
    ensures { result ≡ taken q played }
{
    let mut slots = AudioParamEventTimeline::new().slots;
    let mut used = 0;
    // how far the event before reaches: at first none is before it
    let mut before = f64::NEG_INFINITY;
    for (i, slot) in q.slots[..q.len].iter().enumerate() {
        let e = slot.event;
        let size = length_of(e);
        let clear = is_clear(e);
        // behind `is_clear`: before it, the compiler copies the queue once more
        let time = filed_under(e);
        let reach = reach_of(e);
        let sound = clear & is_due(played, time);
        let fits = (before <= time) & (sound & (size <= AudioParam::STORE - used));
        if !fits {
            return None;
        }
        slots[i] = *slot;
        used += size;
        before = reach;
    }
    Some(AudioParamEventTimeline { slots, len: q.len })
}
