// Two renderers' results beside each other: the first place at which their samples differ, and whether their answers are the same.
#![tactic(auto)]

ghost use Rattle.std.specs.Prelude.{◌≡◌};
ghost use Rattle.param.specs.Param.{param_of, SoundParam};
ghost use Rattle.beside.specs.Beside.{SameValue, FirstPlace, Tells, number_for};

use coding::encode;
use param::{AudioParam, Processed};
use rules::Refusal;
use text::real::Real;

// Whether two values are the same: the two zeros differ, and a NaN is a NaN.
fn same_value(x: f32, y: f32) -> bool
    ensures { SameValue x y result }
{
    x.bits() == y.bits()
}

// The first place at which two runs of samples differ, if there is one; where one is shorter, the place behind its end.
pub fn first_difference(xs: &[f32], ys: &[f32]) -> Option<usize>
    ensures { FirstPlace xs.now ys.now result }
{
    for i in 0..xs.len() {
        if ys.len() <= i {
            return Some(i);
        }
        if !same_value(xs[i], ys[i]) {
            return Some(i);
        }
    }
    if xs.len() < ys.len() {
        Some(xs.len())
    } else {
        None
    }
}

// Whether two runs of samples differ nowhere.
pub fn same_values(xs: &[f32], ys: &[f32]) -> bool
    ensures { Tells (xs.now ≡ ys.now) result }
{
    first_difference(xs, ys).is_none()
}

// By the state that a caller would keep of either.
fn same_param(p: AudioParam, q: AudioParam) -> bool
    requires { SoundParam p × SoundParam q }
    ensures { Tells (p ≡ q) result }
{
    let mut a = [0u64; coding::LENGTH];
    let mut b = [0u64; coding::LENGTH];
    encode(p, &mut a);
    encode(q, &mut b);
    a == b
}

// Document 01's number of a refusal; 0 where the call is answered.
// Compared by its number: an enum is compared by derives, and Refusal has none.
#[tactic(auto, unfolding(crate::specs::Beside::number_for))]
fn number_for(v: Result<(), Refusal>) -> u8
    ensures { result ≡ number_for v }
{
    match v {
        Ok(()) => 0,
        Err(why) => refusals::number_of(why),
    }
}

// Two answers to a block: verdict, carried parameter, steps, current value, whether one-valued.
// No derive: of a float its bits are compared, so that a NaN is itself and the zeros differ.
pub fn same_answer(r: Processed, t: Processed) -> bool
    requires { SoundParam r.param × SoundParam t.param }
    ensures { Tells (r ≡ t) result }
{
    (number_for(r.verdict) == number_for(t.verdict))
        & (r.steps == t.steps)
        & same_value(r.current, t.current)
        & (r.one == t.one)
        & same_param(r.param, t.param)
}
