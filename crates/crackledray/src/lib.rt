// The parameter for programs in Rust or C: each call over a state, an array of plain numbers that the caller keeps, and the curve store.
// A call gives 0, document 01's number of its refusal, or 100 where the state fails its test (coding's is_state); a file's calls 02's numbers too. Refused, nothing changes,
// but that a make refused by 1 or 12 writes its empty parameter, and a refused block its 0 steps, current value 0 and not one-valued.
#![tactic(auto)]

ghost use Rattle.std.specs.Prelude.{◌≡◌, [], length};
ghost use Rattle.rules.specs.Block.{set, step, linear, exponential, target, curve, cancel, hold};
ghost use Rattle.block.specs.Asked.{asked};
ghost use Rattle.param.specs.Param.{param_of, SoundParam};
ghost use Rattle.coding.specs.Coding.{state_length};
ghost use Rattle.card_coding.specs.Calls.{bad_card, WritesCard, OpensCard, HearsCard, EndsCard};
ghost use Rattle.crackledray.specs.Exported.{version, bad_state, rate_of, number_as, Holds, Begins, Tells, Plays, Closes};

use param::{AudioParam, Outcome};
use rules::{AutomationRate, Bounds, Refusal};

const VERSION: u32 = 0x00_0800;

// What is answered where a state fails its test: a number, since C has no `Result`.
const BAD_STATE: u32 = 100;

#[tactic(auto, unfolding(crate::specs::Exported::rate_of))]
fn rate_of(k_rate: bool) -> AutomationRate
    ensures { result ≡ rate_of k_rate }
{
    if k_rate {
        AutomationRate::K
    } else {
        AutomationRate::A
    }
}

// 0, or document 01's number.
#[tactic(auto, unfolding(crate::specs::Exported::number_as))]
fn number_of(verdict: Result<(), Refusal>) -> u32
    ensures { result ≡ number_as verdict }
{
    match verdict {
        Ok(()) => 0,
        Err(why) => refusals::number_of(why) as u32,
    }
}

// The parameter of a state that passes its test. Not inlined, else each exported call has room for one parameter more on the stack.
#[inline(never)]
fn param_in(state: &[u64]) -> Option<AudioParam>
    ensures { Holds state.now result }
{
    let d = coding::decode(state);
    let Ok(()) = d.verdict else {
        return None;
    };
    Some(d.param)
}

// What is answered: a verdict's number, and the parameter written where the verdict is Ok.
fn answer(verdict: Result<(), Refusal>, p: AudioParam, state: &mut [u64]) -> u32
    requires { SoundParam p × (length state.old ≡ state_length) }
    ensures { Closes verdict (param_of p) state.old result state.new }
{
    let number = number_of(verdict);
    if verdict.is_ok() {
        coding::encode(p, state);
    }
    number
}

// What a call answers. A block has no outcome: to make one would copy its parameter once more.
fn close(said: Outcome, state: &mut [u64]) -> u32
    requires { SoundParam said.param × (length state.old ≡ state_length) }
    ensures { Closes said.verdict (param_of said.param) state.old result state.new }
{
    answer(said.verdict, said.param, state)
}

// A parameter made and written over a state of the right length; refused, the empty one.
fn begin(state: &mut [u64], bounds: Bounds, rate: AutomationRate, edition: u64) -> u32
    ensures { Begins state.old bounds rate edition result state.new }
{
    if state.len() != coding::LENGTH {
        return BAD_STATE;
    }
    let r = AudioParam::with_edition(bounds, rate, edition);
    coding::encode(r.param, state);
    number_of(r.verdict)
}

// The library's own version, for a caller to hold against the header that it was compiled with.
#[unsafe(no_mangle)]
pub extern "C" fn crackledray_version() -> u32
    ensures { result ≡ version }
{
    VERSION
}

// Under the first edition.
#[unsafe(no_mangle)]
pub extern "C" fn crackledray_make(
    state: &mut [u64],
    min: f32,
    default: f32,
    max: f32,
    k_rate: bool,
) -> u32
    ensures { Begins state.old (record { min = min; default = default; max = max }) (rate_of k_rate) 1 result state.new }
{
    begin(state, Bounds { min, default, max }, rate_of(k_rate), 1)
}

// Under the edition of that number.
#[unsafe(no_mangle)]
pub extern "C" fn crackledray_make_under(
    state: &mut [u64],
    min: f32,
    default: f32,
    max: f32,
    k_rate: bool,
    edition: u64,
) -> u32
    ensures { Begins state.old (record { min = min; default = default; max = max }) (rate_of k_rate) edition result state.new }
{
    begin(
        state,
        Bounds { min, default, max },
        rate_of(k_rate),
        edition,
    )
}

#[unsafe(no_mangle)]
pub extern "C" fn crackledray_set(state: &mut [u64], value: f32) -> u32
    ensures { Tells state.old [] (set value) result state.new [] }
{
    let Some(p) = param_in(&state[..]) else {
        return BAD_STATE;
    };
    close(p.set_value(value), state)
}

#[unsafe(no_mangle)]
pub extern "C" fn crackledray_step(state: &mut [u64], value: f32, time: f64) -> u32
    ensures { Tells state.old [] (step value «time») result state.new [] }
{
    let Some(p) = param_in(&state[..]) else {
        return BAD_STATE;
    };
    close(p.set_value_at_time(value, time), state)
}

#[unsafe(no_mangle)]
pub extern "C" fn crackledray_linear(state: &mut [u64], value: f32, time: f64) -> u32
    ensures { Tells state.old [] (linear value «time») result state.new [] }
{
    let Some(p) = param_in(&state[..]) else {
        return BAD_STATE;
    };
    close(p.linear_ramp_to_value_at_time(value, time), state)
}

#[unsafe(no_mangle)]
pub extern "C" fn crackledray_exponential(state: &mut [u64], value: f32, time: f64) -> u32
    ensures { Tells state.old [] (exponential value «time») result state.new [] }
{
    let Some(p) = param_in(&state[..]) else {
        return BAD_STATE;
    };
    close(p.exponential_ramp_to_value_at_time(value, time), state)
}

#[unsafe(no_mangle)]
pub extern "C" fn crackledray_target(state: &mut [u64], value: f32, time: f64, constant: f64) -> u32
    ensures { Tells state.old [] (target value «time» constant) result state.new [] }
{
    let Some(p) = param_in(&state[..]) else {
        return BAD_STATE;
    };
    close(p.set_target_at_time(value, time, constant), state)
}

#[unsafe(no_mangle)]
pub extern "C" fn crackledray_curve(
    state: &mut [u64],
    values: &[f32],
    time: f64,
    duration: f64,
    store: &mut [f32],
) -> u32
    ensures { Tells state.old store.old (curve «time» duration values.now) result state.new store.new }
{
    let Some(p) = param_in(&state[..]) else {
        return BAD_STATE;
    };
    close(
        p.set_value_curve_at_time(values, time, duration, store),
        state,
    )
}

#[unsafe(no_mangle)]
pub extern "C" fn crackledray_cancel(state: &mut [u64], time: f64, store: &mut [f32]) -> u32
    ensures { Tells state.old store.old (cancel «time») result state.new store.new }
{
    let Some(p) = param_in(&state[..]) else {
        return BAD_STATE;
    };
    close(p.cancel_scheduled_values(time, store), state)
}

#[unsafe(no_mangle)]
pub extern "C" fn crackledray_hold(state: &mut [u64], time: f64, store: &mut [f32]) -> u32
    ensures { Tells state.old store.old (hold «time») result state.new store.new }
{
    let Some(p) = param_in(&state[..]) else {
        return BAD_STATE;
    };
    close(p.cancel_and_hold_at_time(time, store), state)
}

// `steps`, `current` and `one` are written where the state passes its test: 0, 0 and false where the block is refused.
#[unsafe(no_mangle)]
pub extern "C" fn crackledray_block(
    state: &mut [u64],
    time: f64,
    period: f64,
    count: usize,
    input: &[f32],
    output: &mut [f32],
    store: &mut [f32],
    steps: &mut usize,
    current: &mut f32,
    one: &mut bool,
) -> u32
    ensures { Plays state.old store.old (asked «time» period count input.now output.old)
        (record { number = bad_state; state = state.old; store = store.old; output = output.old; steps = steps.old; current = current.old; one = one.old })
        (record { number = result; state = state.new; store = store.new; output = output.new; steps = steps.new; current = current.new; one = one.new }) }
{
    let Some(p) = param_in(&state[..]) else {
        return BAD_STATE;
    };
    let r = p.process(time, period, count, input, output, store);
    *steps = r.steps;
    *current = r.current;
    *one = r.one;
    answer(r.verdict, r.param, state)
}

// ---- a schedule file for the memory card (02, C-11)

// Writes the parameter of a state, before its first block, as a file into `out`. `at` is written where the state passes its test: how many bytes the file has;
// refused, the event's place, or how many bytes it takes.
#[unsafe(no_mangle)]
pub extern "C" fn crackledray_card_write(
    state: &[u64],
    store: &[f32],
    out: &mut [u8],
    at: &mut usize,
) -> u32
    ensures { WritesCard state.now store.now out.old at.old result out.new at.new }
{
    card_coding::write(state, store, out, at)
}

// A reader before the first part: in `card` what is kept of it between the calls, in `numbers` its curves'.
#[unsafe(no_mangle)]
pub extern "C" fn crackledray_card_open(
    card: &mut [u64],
    numbers: &mut [f32],
    k_rate: bool,
    edition: u64,
) -> u32
    ensures { OpensCard (rate_of k_rate) edition card.old numbers.old result card.new numbers.new }
{
    card_coding::open(card, numbers, rate_of(k_rate), edition)
}

// One part more. That a field is refused says the end.
#[unsafe(no_mangle)]
pub extern "C" fn crackledray_card_part(
    card: &mut [u64],
    window: &mut [u8],
    numbers: &mut [f32],
    part: &[u8],
) -> u32
    ensures { HearsCard card.old numbers.old window.old part.now result card.new numbers.new window.new }
{
    card_coding::part(card, window, numbers, part)
}

// The file's end: its parameter over the state, and its numbers in the store. `at` is written where the array and the state pass: how many bytes the file has;
// refused, the offset of the field.
#[unsafe(no_mangle)]
pub extern "C" fn crackledray_card_end(
    card: &[u64],
    window: &[u8],
    numbers: &mut [f32],
    state: &mut [u64],
    store: &mut [f32],
    at: &mut usize,
) -> u32
    ensures { EndsCard card.now numbers.old window.now
        (record { number = bad_card; at = at.old; state = state.old; store = store.old })
        (record { number = result; at = at.new; state = state.new; store = store.new }) }
{
    card_coding::end(card, window, numbers, state, store, at)
}
