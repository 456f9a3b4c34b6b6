// What a block is and what it writes: its times, whether it needs a walk, its samples mixed with the input.
#![tactic(auto)]

ghost use Rattle.std.specs.Prelude.{◌≡◌, true, List, ℕ, ◌+◌, ◌≤◌, ◌<◌, length, take, replicate, Float};
ghost use Rattle.rules.specs.Refusals.{fits_count};
ghost use Rattle.rules.specs.Mix.{first_of};
ghost use Rattle.rules.specs.Block.{infos_of, rests_for, says_one};
ghost use Rattle.block.specs.Asked.{asked, Fitting, Given, mixed_in, written};

use floats::taken_time;
use rules::{AutomationRate, BlockInfos, Bounds, Event};

// ---- its times, and whether it needs a walk

pub fn infos_of(rate: AutomationRate, time: f64, period: f64, count: usize) -> BlockInfos
    requires { count ≤ 1024 }
    ensures { (is os : List Float) → result ≡ infos_of rate (asked time period count is os) }
{
    let time = taken_time(time);
    BlockInfos {
        time,
        dt: period,
        next: rounding::fused64(count as u64, period, time),
        count,
        rate,
    }
}

// Whether the block is one-valued: the first event does not reach into it.
#[tactic(auto, unfolding(rules::specs::Block::rests_for))]
pub fn rests_for(infos: BlockInfos, head: Option<Event>) -> bool
    ensures { result ≡ rests_for infos head }
{
    head.is_none_or(|e| !timeline::is_ramp(e) & (infos.next < timeline::filed_under(e)))
}

// Whether all samples are said to be one value, with an input of this length.
pub fn says_one(rate: AutomationRate, rests: bool, input: usize) -> bool
    ensures { (is : List Float) → length is ≡ input → result ≡ says_one rate rests is }
{
    match rate {
        AutomationRate::A => rests & (input == 0),
        AutomationRate::K => true,
    }
}

// ---- its samples

fn first_of(input: &[f32]) -> f32
    ensures { result ≡ first_of input.now }
{
    input.first().copied().unwrap_or(0.0)
}

// One value for the whole block.
pub fn mix_value(bounds: Bounds, infos: BlockInfos, value: f32, input: &[f32], output: &mut [f32])
    requires { Fitting infos input.now output.old }
    ensures { output.new ≡ written bounds infos input.now (replicate infos.count value) output.old }
{
    let rate = infos.rate;
    if says_one(rate, true, input.len()) {
        let sample = mix::mixed_value(bounds, first_of(input), value);
        mix::put_sample(output, infos.count, sample);
    } else {
        mix::mix_one(bounds, input, value, output);
    }
}

// Up to 128 values that stand in the output: they are taken into the block buffer, and mixed from there with their inputs, or with silence.
fn mix_part(bounds: Bounds, input: &[f32], output: &mut [f32])
    requires { (length output.old ≤ 128) × (fits_count input.now (length output.old) ≡ true) }
    ensures { output.new ≡ mixed_in bounds input.now output.old }
{
    let mut buffer = [0.0f32; 128];
    let n = output.len();
    mix::put_values(&mut buffer, &output[..]);
    if input.len() == 0 {
        mix::mix_silence(bounds, &buffer[..n], output);
    } else {
        mix::mix_input(bounds, input, &buffer[..n], output);
    }
}

// Any number of values, by such parts.
fn mix_parts(bounds: Bounds, input: &[f32], output: &mut [f32])
    requires { fits_count input.now (length output.old) ≡ true }
    ensures { output.new ≡ mixed_in bounds input.now output.old }
{
    let n = output.len();
    let lent = input.len();
    for i in (0..n).step_by(128) {
        let e = n.min(i + 128);
        // where there is no input, the part's is as empty
        mix_part(bounds, &input[i.min(lent)..e.min(lent)], &mut output[i..e]);
    }
}

// The walk's values, which stand in the output: at A-rate one at each place, at K-rate one at the first.
pub fn mix_values(bounds: Bounds, infos: BlockInfos, input: &[f32], output: &mut [f32])
    requires { Fitting infos input.now output.old }
    ensures { (vs : List Float) → Given infos vs → take (length vs) output.old ≡ vs → output.new ≡ written bounds infos input.now vs output.old }
{
    let rate = infos.rate;
    match rate {
        AutomationRate::K => mix_value(bounds, infos, output[0], input, output),
        AutomationRate::A => mix_parts(bounds, input, &mut output[..infos.count]),
    }
}
