// A block of a parameter that is lent, and changed where it lies.
#![tactic(auto)]

ghost use Rattle.param.specs.Param.{SoundParam};
ghost use Rattle.param.specs.Processed.{Processes};
ghost use Rattle.block.specs.Asked.{asked};
ghost use Rattle.tick.specs.Ticked.{with_param};

use param::{AudioParam, Processed};
use rules::Refusal;

// What a tick says; the parameter after it lies where the caller lent it.
#[derive(Clone, Copy)]
pub struct Ticked {
    pub verdict: Result<(), Refusal>,
    pub steps: usize,
    pub current: f32,
    pub one: bool,
}

pub fn tick(
    p: &mut AudioParam,
    block_time: f64,
    period: f64,
    count: usize,
    input: &[f32],
    output: &mut [f32],
    store: &mut [f32],
) -> Ticked
    requires { SoundParam p.old }
    ensures { Processes p.old store.old (asked block_time period count input.now output.old) (with_param result p.new) output.new store.new }
{
    let r = (*p).process(block_time, period, count, input, output, store);
    *p = r.param;
    Ticked {
        verdict: r.verdict,
        steps: r.steps,
        current: r.current,
        one: r.one,
    }
}

// The same by value: whoever calls it has no borrow to follow.
pub fn process_by_tick(
    p: AudioParam,
    block_time: f64,
    period: f64,
    count: usize,
    input: &[f32],
    output: &mut [f32],
    store: &mut [f32],
) -> Processed
    requires { SoundParam p }
    ensures { Processes p store.old (asked block_time period count input.now output.old) result output.new store.new }
{
    let mut q = p;
    let t = tick(&mut q, block_time, period, count, input, output, store);
    Processed {
        verdict: t.verdict,
        param: q,
        steps: t.steps,
        current: t.current,
        one: t.one,
    }
}
