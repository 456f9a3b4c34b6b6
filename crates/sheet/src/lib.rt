// Document 01's bench sheet: the rows B2 to B12, and how one is played by a renderer.
#![tactic(auto)]

ghost use Rattle.std.specs.Prelude.{◌≡◌};
ghost use Rattle.block.specs.Asked.{asked};
ghost use Rattle.param.specs.Param.{SoundParam};
ghost use Rattle.param.specs.Processed.{Processes};
ghost use Rattle.sheet.specs.declared.Call.{Call};
ghost use Rattle.sheet.specs.Rows.{n0, once, b2, b3, b4, b5, b6, b7, b8, b9, b10, b11, b12, row_of};
ghost use Rattle.sheet.specs.Played.{n1, zeros, input_of, Applies, SetsUp, PlaysRow};

use param::{AudioParam, Outcome, Processed};
use rules::{AutomationRate, Bounds};
use tick::process_by_tick;

// What a row asks for before a block.
#[derive(Clone, Copy)]
pub enum Call {
    Step {
        value: f32,
        time: f64,
    },
    Linear {
        value: f32,
        time: f64,
    },
    Exponential {
        value: f32,
        time: f64,
    },
    Curve {
        first: f32,
        middle: f32,
        last: f32,
        start: f64,
        duration: f64,
    },
    Hold {
        time: f64,
    },
    Cancel {
        time: f64,
    },
}

// A row: the parameter, up to three calls, and a block at time 0.
#[derive(Clone, Copy)]
pub struct Row {
    pub bounds: Bounds,
    pub rate: AutomationRate,
    pub first: Option<Call>,
    pub second: Option<Call>,
    pub third: Option<Call>,
    pub count: usize,
    // the block's input is NaN 0; else silence
    pub noisy: bool,
    // the sheet gives the intrinsic value, too
    pub shows: bool,
    // a call, and a second block of so many samples at time 4; 0 where there is none
    pub between: Option<Call>,
    pub again: usize,
}

// A row of one block, at A-rate and with silence: "range −10..10, default 0 unless said", here −10..max.
fn once(
    max: f32,
    first: Option<Call>,
    second: Option<Call>,
    third: Option<Call>,
    count: usize,
    shows: bool,
) -> Row
    ensures { result ≡ once max first second third count shows }
{
    Row {
        bounds: Bounds {
            min: -10.0,
            default: 0.0,
            max,
        },
        rate: AutomationRate::A,
        first,
        second,
        third,
        count,
        noisy: false,
        shows,
        between: None,
        again: 0,
    }
}

fn step(value: f32, time: f64) -> Option<Call>
    ensures { result ≡ Some (Call.Step value time) }
{
    Some(Call::Step { value, time })
}

// step 5 at 2
fn b2() -> Row
    ensures { result ≡ b2 }
{
    once(10.0, step(5.0, 2.0), None, None, 4, false)
}

// step 5 at 2.5
fn b3() -> Row
    ensures { result ≡ b3 }
{
    once(10.0, step(5.0, 2.5), None, None, 4, false)
}

// step 5 at 4
fn b4() -> Row
    ensures { result ≡ b4 }
{
    once(10.0, step(5.0, 4.0), None, None, 4, true)
}

// step 0 at 0, linear 8 at 8
fn b5() -> Row
    ensures { result ≡ b5 }
{
    let linear = Call::Linear {
        value: 8.0,
        time: 8.0,
    };
    once(10.0, step(0.0, 0.0), Some(linear), None, 10, false)
}

// B5 with hold at 2
fn b6() -> Row
    ensures { result ≡ b6 }
{
    let hold = Call::Hold { time: 2.0 };
    Row {
        third: Some(hold),
        count: 4,
        ..b5()
    }
}

// curve 0 4 0 from 0 for 4
fn b7() -> Row
    ensures { result ≡ b7 }
{
    let curve = Call::Curve {
        first: 0.0,
        middle: 4.0,
        last: 0.0,
        start: 0.0,
        duration: 4.0,
    };
    once(10.0, Some(curve), None, None, 6, false)
}

// step 0 at 0, exponential 5 at 3
fn b8() -> Row
    ensures { result ≡ b8 }
{
    let exponential = Call::Exponential {
        value: 5.0,
        time: 3.0,
    };
    once(10.0, step(0.0, 0.0), Some(exponential), None, 5, false)
}

// range −10..3, step 5 at 2
fn b9() -> Row
    ensures { result ≡ b9 }
{
    once(3.0, step(5.0, 2.0), None, None, 4, false)
}

// K-rate, step 5 at 0, two blocks
fn b10() -> Row
    ensures { result ≡ b10 }
{
    Row {
        rate: AutomationRate::K,
        again: 4,
        ..once(10.0, step(5.0, 0.0), None, None, 4, false)
    }
}

// range −1..1, default 0.5, input NaN 0
fn b11() -> Row
    ensures { result ≡ b11 }
{
    let bounds = Bounds {
        min: -1.0,
        default: 0.5,
        max: 1.0,
    };
    Row {
        bounds,
        noisy: true,
        ..once(1.0, None, None, None, 2, false)
    }
}

// B5, count 4, cancel at 5, a second block
fn b12() -> Row
    ensures { result ≡ b12 }
{
    let cancel = Call::Cancel { time: 5.0 };
    Row {
        count: 4,
        between: Some(cancel),
        again: 4,
        ..b5()
    }
}

// The row of a number from 2 to 12; B12 for any other.
pub fn row_of(n: u64) -> Row
    ensures { result ≡ row_of n }
{
    match n {
        2 => b2(),
        3 => b3(),
        4 => b4(),
        5 => b5(),
        6 => b6(),
        7 => b7(),
        8 => b8(),
        9 => b9(),
        10 => b10(),
        11 => b11(),
        _ => b12(),
    }
}

// A call of a row, made on a parameter.
fn ask(p: AudioParam, call: Option<Call>, store: &mut [f32]) -> Outcome
    requires { SoundParam p }
    ensures { Applies p store.old call result store.new }
{
    let Some(call) = call else {
        return Outcome {
            verdict: Ok(()),
            param: p,
        };
    };
    match call {
        Call::Step { value, time } => p.set_value_at_time(value, time),
        Call::Linear { value, time } => p.linear_ramp_to_value_at_time(value, time),
        Call::Exponential { value, time } => p.exponential_ramp_to_value_at_time(value, time),
        Call::Curve {
            first,
            middle,
            last,
            start,
            duration,
        } => {
            let values = [first, middle, last];
            p.set_value_curve_at_time(&values, start, duration, store)
        }
        Call::Hold { time } => p.cancel_and_hold_at_time(time, store),
        Call::Cancel { time } => p.cancel_scheduled_values(time, store),
    }
}

// The parameter of a row, after its calls before the first block.
fn set_up(row: Row, store: &mut [f32]) -> AudioParam
    ensures { SetsUp row store.old result store.new }
{
    let made = AudioParam::new(row.bounds, row.rate);
    let one = ask(made.param, row.first, store);
    let two = ask(one.param, row.second, store);
    let three = ask(two.param, row.third, store);
    three.param
}

// What renders a block of period 1: all meet one contract.
pub trait Renderer {
    fn render(
        &self,
        p: AudioParam,
        time: f64,
        count: usize,
        input: &[f32],
        output: &mut [f32],
        store: &mut [f32],
    ) -> Processed
        requires { SoundParam p }
        ensures { Processes p store.old (asked «time» n1 count input.now output.old) result output.new store.new };
}

#[derive(Clone, Copy)]
pub struct ByProcess;

impl Renderer for ByProcess {
    fn render(
        &self,
        p: AudioParam,
        time: f64,
        count: usize,
        input: &[f32],
        output: &mut [f32],
        store: &mut [f32],
    ) -> Processed {
        p.process(time, 1.0, count, input, output, store)
    }
}

#[derive(Clone, Copy)]
pub struct ByTick;

impl Renderer for ByTick {
    fn render(
        &self,
        p: AudioParam,
        time: f64,
        count: usize,
        input: &[f32],
        output: &mut [f32],
        store: &mut [f32],
    ) -> Processed {
        process_by_tick(p, time, 1.0, count, input, output, store)
    }
}

#[derive(Clone, Copy)]
pub struct ByPlain;

impl Renderer for ByPlain {
    fn render(
        &self,
        p: AudioParam,
        time: f64,
        count: usize,
        input: &[f32],
        output: &mut [f32],
        store: &mut [f32],
    ) -> Processed {
        plain::process(p, time, 1.0, count, input, output, store)
    }
}

// The first block of a row: its input is NaN 0 or silence.
fn first_block<R: Renderer>(
    by: &R,
    p: AudioParam,
    row: Row,
    output: &mut [f32],
    store: &mut [f32],
) -> Processed
    requires { SoundParam p }
    ensures { Processes p store.old (asked n0 n1 row.count (input_of row.noisy) output.old) result output.new store.new }
{
    if row.noisy {
        by.render(p, 0.0, row.count, &[0.0 / 0.0, 0.0], output, store)
    } else {
        by.render(p, 0.0, row.count, &[], output, store)
    }
}

// What a row's two blocks answer.
#[derive(Clone, Copy)]
pub struct Blocks {
    pub first: Processed,
    pub second: Processed,
}

// A row, played: its samples stand in `first` and `second`. Where the sheet has no second block, its count of 0 is refused.
pub fn play<R: Renderer>(
    by: &R,
    row: Row,
    first: &mut [f32],
    second: &mut [f32],
    store: &mut [f32],
) -> Blocks
    ensures { PlaysRow row store.old first.old second.old result first.new second.new store.new }
{
    let p = set_up(row, store);
    let before = first_block(by, p, row, first, store);
    let asked = ask(before.param, row.between, store);
    let after = by.render(asked.param, 4.0, row.again, &[], second, store);
    Blocks {
        first: before,
        second: after,
    }
}

// The same with buffers of its own: room for ten samples a block, and the store.
#[derive(Clone, Copy)]
pub struct Played {
    pub blocks: Blocks,
    pub first: [f32; 10],
    pub second: [f32; 10],
    pub store: [f32; AudioParam::STORE],
}

// A row, played from zeros.
pub fn play_from_zeros<R: Renderer>(by: &R, row: Row) -> Played
    ensures { PlaysRow row (zeros AudioParam.STORE) (zeros 10) (zeros 10) result.blocks result.first result.second result.store }
{
    let mut first = [0.0f32; 10];
    let mut second = [0.0f32; 10];
    let mut store = [0.0f32; AudioParam::STORE];
    let blocks = play(by, row, &mut first, &mut second, &mut store);
    Played {
        blocks,
        first,
        second,
        store,
    }
}
