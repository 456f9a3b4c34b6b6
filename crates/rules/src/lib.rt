// The plain types that document 01's rules speak of. No code: the rules are in specs/.
#![tactic(auto)]

// A waiting event; a curve's numbers stand in the curve store, `len` of them.
#[derive(Clone, Copy)]
pub enum Event {
    Step {
        value: f32,
        time: f64,
    },
    Linear {
        value: f32,
        time: f64,
        hold: Option<f64>,
    },
    Exponential {
        value: f32,
        time: f64,
        hold: Option<f64>,
    },
    Target {
        value: f32,
        time: f64,
        constant: f64,
        hold: Option<f64>,
    },
    Curve {
        start: f64,
        duration: f64,
        len: usize,
        hold: Option<f64>,
    },
}

// Whether a block has a value for each sample (A) or one for all (K).
#[derive(Clone, Copy)]
pub enum AutomationRate {
    A,
    K,
}

// Which edition of the Web Audio API a parameter is made under: 1.0, or 1.1 with its longer blocks.
#[derive(Clone, Copy)]
pub enum Edition {
    First,
    Second,
}

// The range of a parameter's samples, and the value that it starts with.
#[derive(Clone, Copy)]
pub struct Bounds {
    pub min: f32,
    pub default: f32,
    pub max: f32,
}

// A finished event's time and value.
#[derive(Clone, Copy)]
pub struct Finished {
    pub time: f64,
    pub value: f32,
}

// What a body may know of its block: its time, the sample period, the next block's time, the count of samples, the rate.
#[derive(Clone, Copy)]
pub struct BlockInfos {
    pub time: f64,
    pub dt: f64,
    pub next: f64,
    pub count: usize,
    pub rate: AutomationRate,
}

// Why a call is refused: a call says `Result<(), Refusal>`; `number_of` in specs/Refusals.antt gives document 01's numbers, and 02's.
#[derive(Clone, Copy)]
pub enum Refusal {
    Bounds,
    NotFinite,
    BeforeZero,
    NotAbove,
    ZeroTarget,
    ShortCurve,
    QueueFull,
    StoreFull,
    BadBlock,
    OutOfOrder,
    Inside,
    UnknownEdition,
    BadStore,
}
