// The verdict on a block.
ghost use Rattle.std.specs.Prelude.{◌≡◌, List, eqb, length, Float};
ghost use Rattle.rules.specs.Numbers.{store_length};
ghost use Rattle.rules.specs.Refusals.{lowest, is_time, is_period, is_count, is_block, is_earlier, block_rows};

use crate::refuse_if;
use rules::Refusal;

fn is_time(time: f64) -> bool
    ensures { result ≡ is_time time }
{
    floats::is_finite(time) & !floats::is_negative(time)
}

pub fn is_period(period: f64) -> bool
    ensures { result ≡ is_period period }
{
    floats::is_finite(period) & floats::is_positive(period)
}

fn is_count(most: usize, count: usize) -> bool
    ensures { result ≡ is_count most count }
{
    (1 <= count) & (count <= most)
}

// Whether refusal 9 does not apply: `input` and `output` are the lengths of what is lent.
fn is_block(most: usize, time: f64, period: f64, count: usize, input: usize, output: usize) -> bool
    ensures { (is os : List Float) → length is ≡ input → length os ≡ output → result ≡ is_block most time period count is os }
{
    let lent = (count <= output) & ((input == 0) | (input == count));
    is_time(time) & (is_period(period) & (is_count(most, count) & lent))
}

// Whether refusal 10 applies: a time before the last one.
#[tactic(auto, unfolding(rules::specs::Refusals::is_earlier))]
pub fn is_earlier(last: Option<f64>, time: f64) -> bool
    ensures { result ≡ is_earlier last time }
{
    last.is_some_and(|t| time < t)
}

// `most` is the ceiling of the count, `input` and `output` are the lengths of what is lent, `lent` says whether a whole store is.
#[tactic(auto, unfolding(rules::specs::Refusals::lowest, rules::specs::Refusals::block_rows))]
pub fn verdict(
    most: usize,
    last: Option<f64>,
    time: f64,
    period: f64,
    count: usize,
    input: usize,
    output: usize,
    lent: bool,
) -> Result<(), Refusal>
    ensures { (is os store : List Float) → length is ≡ input → length os ≡ output → lent ≡ eqb (length store) store_length
        → result ≡ lowest (block_rows most last store time period count is os) }
{
    let block = is_block(most, time, period, count, input, output);
    refuse_if(!block, Refusal::BadBlock)?;
    refuse_if(is_earlier(last, time), Refusal::OutOfOrder)?;
    refuse_if(!lent, Refusal::BadStore)
}
