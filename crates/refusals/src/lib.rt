// Document 01's refusals: their numbers, and for each call the verdict. What is tested against a ceiling, the caller tests: it has the ceilings.
#![tactic(auto)]

ghost use Rattle.std.specs.Prelude.{◌≡◌, true, false, IfOk, IfErr, not, List, ◌∷◌, [], ◌+◌, leb, ltb, eqb, length, Float};
ghost use Rattle.rules.specs.Numbers.{most_events, store_length, taken_time};
ghost use Rattle.rules.specs.Queue.{lengths_of, any_covers};
ghost use Rattle.rules.specs.Refusals.{number_of, row, lowest, all_finite, are_bounds, is_edition, is_crossed, making_rows, value_rows, exponential_rows, target_rows, curve_rows, cancel_rows};

use rules::{Bounds, Event, Refusal};

pub mod block; // block.rt: the verdict on a block
pub mod sound; // sound.rt: whether parts make a parameter

// The numbers of the table, which answers, cards and C callers have.
pub fn number_of(r: Refusal) -> u8
    ensures { result ≡ number_of r }
{
    match r {
        Refusal::Bounds => 1,
        Refusal::NotFinite => 2,
        Refusal::BeforeZero => 3,
        Refusal::NotAbove => 4,
        Refusal::ZeroTarget => 5,
        Refusal::ShortCurve => 6,
        Refusal::QueueFull => 7,
        Refusal::StoreFull => 8,
        Refusal::BadBlock => 9,
        Refusal::OutOfOrder => 10,
        Refusal::Inside => 11,
        Refusal::UnknownEdition => 12,
        Refusal::BadStore => 14,
    }
}

// One row of the table: it refuses where it applies.
fn refuse_if(applies: bool, why: Refusal) -> Result<(), Refusal>
    ensures answered { IfOk result (λ _. applies ≡ false) }
    ensures refused { IfErr result (λ given. (applies ≡ true) × (given ≡ why)) }
{
    if applies { Err(why) } else { Ok(()) }
}

#[tactic(auto, unfolding(rules::specs::Refusals::all_finite))]
pub fn all_finite(values: &[f32]) -> bool
    ensures { result ≡ all_finite values.now }
{
    values.iter().all(|value| floats::is_finite(*value))
}

// The range's ends and the default are finite, and in order.
pub fn are_bounds(b: Bounds) -> bool
    ensures { result ≡ are_bounds b }
{
    let finite = floats::is_finite(b.min)
        & (floats::is_finite(b.default) & floats::is_finite(b.max));
    finite & ((b.min <= b.default) & (b.default <= b.max))
}

// Whether a number is one of the two editions'.
pub fn is_edition(number: u64) -> bool
    ensures { result ≡ is_edition number }
{
    (number == 1) | (number == 2)
}

// Of making a parameter, under the edition of that number.
#[tactic(auto, unfolding(rules::specs::Refusals::lowest, rules::specs::Refusals::making_rows))]
pub fn making(b: Bounds, edition: u64) -> Result<(), Refusal>
    ensures { result ≡ lowest (making_rows b edition) }
{
    refuse_if(!are_bounds(b), Refusal::Bounds)?;
    refuse_if(!is_edition(edition), Refusal::UnknownEdition)
}

// Of a step or a linear ramp; `inside` says whether its time lies inside a waiting curve, `full` whether as many events wait as can.
#[tactic(auto, unfolding(rules::specs::Refusals::lowest, rules::specs::Refusals::value_rows, rules::specs::Refusals::all_finite))]
pub fn value(inside: bool, full: bool, value: f32, time: f64) -> Result<(), Refusal>
    ensures { (q : List Event) → inside ≡ any_covers (taken_time time) q → full ≡ leb most_events (length q) → result ≡ lowest (value_rows q value time) }
{
    let finite = floats::is_finite(value) & floats::is_finite(time);
    refuse_if(!finite, Refusal::NotFinite)?;
    refuse_if(floats::is_negative(time), Refusal::BeforeZero)?;
    refuse_if(inside, Refusal::Inside)?;
    refuse_if(full, Refusal::QueueFull)
}

#[tactic(auto, unfolding(rules::specs::Refusals::lowest, rules::specs::Refusals::exponential_rows, rules::specs::Refusals::all_finite))]
pub fn exponential(inside: bool, full: bool, value: f32, time: f64) -> Result<(), Refusal>
    ensures { (q : List Event) → inside ≡ any_covers (taken_time time) q → full ≡ leb most_events (length q) → result ≡ lowest (exponential_rows q value time) }
{
    let finite = floats::is_finite(value) & floats::is_finite(time);
    refuse_if(!finite, Refusal::NotFinite)?;
    refuse_if(floats::is_negative(time), Refusal::BeforeZero)?;
    refuse_if(floats::is_zero(value), Refusal::ZeroTarget)?;
    refuse_if(inside, Refusal::Inside)?;
    refuse_if(full, Refusal::QueueFull)
}

#[tactic(auto, unfolding(rules::specs::Refusals::lowest, rules::specs::Refusals::target_rows, rules::specs::Refusals::all_finite))]
pub fn target(inside: bool, full: bool, value: f32, time: f64, constant: f64) -> Result<(), Refusal>
    ensures { (q : List Event) → inside ≡ any_covers (taken_time time) q → full ≡ leb most_events (length q) → result ≡ lowest (target_rows q value time constant) }
{
    let finite = floats::is_finite(value) & (floats::is_finite(time) & floats::is_finite(constant));
    refuse_if(!finite, Refusal::NotFinite)?;
    refuse_if(floats::is_negative(time), Refusal::BeforeZero)?;
    refuse_if(floats::is_negative(constant), Refusal::NotAbove)?;
    refuse_if(inside, Refusal::Inside)?;
    refuse_if(full, Refusal::QueueFull)
}

// `crossed` says whether it lies inside a waiting curve or has a waiting event inside, `crowded` whether the waiting curves' numbers and these are more than the store has, `lent` whether a whole store is lent.
#[tactic(auto, unfolding(rules::specs::Refusals::lowest, rules::specs::Refusals::curve_rows, rules::specs::Refusals::all_finite))]
pub fn curve(
    values: &[f32],
    time: f64,
    duration: f64,
    crossed: bool,
    full: bool,
    crowded: bool,
    lent: bool,
) -> Result<(), Refusal>
    ensures { (q : List Event) (store : List Float) → crossed ≡ is_crossed q (taken_time time) duration → full ≡ leb most_events (length q) → crowded ≡ ltb store_length (lengths_of q + length values.now)
        → lent ≡ eqb (length store) store_length → result ≡ lowest (curve_rows q store time duration values.now) }
{
    let finite = floats::is_finite(time) & (floats::is_finite(duration) & all_finite(values));
    refuse_if(!finite, Refusal::NotFinite)?;
    refuse_if(floats::is_negative(time), Refusal::BeforeZero)?;
    refuse_if(!floats::is_positive(duration), Refusal::NotAbove)?;
    refuse_if(values.len() < 2, Refusal::ShortCurve)?;
    refuse_if(crossed, Refusal::Inside)?;
    refuse_if(full, Refusal::QueueFull)?;
    refuse_if(crowded, Refusal::StoreFull)?;
    refuse_if(!lent, Refusal::BadStore)
}

// Of a cancel, or a cancel-and-hold.
#[tactic(auto, unfolding(rules::specs::Refusals::lowest, rules::specs::Refusals::cancel_rows, rules::specs::Refusals::all_finite))]
pub fn cancel(time: f64, lent: bool) -> Result<(), Refusal>
    ensures { (store : List Float) → lent ≡ eqb (length store) store_length → result ≡ lowest (cancel_rows store time) }
{
    refuse_if(!floats::is_finite(time), Refusal::NotFinite)?;
    refuse_if(floats::is_negative(time), Refusal::BeforeZero)?;
    refuse_if(!lent, Refusal::BadStore)
}
