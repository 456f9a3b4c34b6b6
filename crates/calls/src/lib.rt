// A line of the session language, read as the call that it is.
#![tactic(auto)]

ghost use Rattle.std.specs.Prelude.{◌≡◌, List, ℕ, ◌≤◌, length, take, Float};
ghost use Rattle.text.specs.Words.{words_from, taken, next_at};
ghost use Rattle.calls.specs.Language.{Heard, rate_in, edition_taken, numbers_at, counted_at, singles, counted, make_of, set_of, timed, target_of, curve_of, cancelling, block_of, lend_of, poke_of, load_of, found, scheduling, calls, call_of};

use rules::{AutomationRate, Bounds};
use text::hex::next_bytes;
use text::words::{Next, next_count, next_real, over, word_end};

// A call of the page, or that a line has none. The numbers of a curve and a block's input go into a lent slice, and a file's bytes into
// another.
#[derive(Clone, Copy)]
pub enum Call {
    Nothing,
    Make {
        bounds: Bounds,
        rate: AutomationRate,
        // by its number
        edition: u64,
    },
    Set {
        value: f32,
    },
    Step {
        value: f32,
        time: f64,
    },
    Linear {
        value: f32,
        time: f64,
    },
    Exponential {
        value: f32,
        time: f64,
    },
    Target {
        value: f32,
        time: f64,
        constant: f64,
    },
    Curve {
        start: f64,
        duration: f64,
        len: usize,
    },
    Cancel {
        time: f64,
    },
    Hold {
        time: f64,
    },
    Block {
        by: Renderer,
        time: f64,
        period: f64,
        count: usize,
        output: usize,
        input: usize,
    },
    Lend {
        len: usize,
    },
    Poke {
        place: usize,
        value: f32,
    },
    State,
    Save,
    // a file of so many bytes, in parts of so many
    Load {
        part: usize,
        len: usize,
        rate: AutomationRate,
        edition: u64,
    },
}

// By which of the two a block is played; their answers are the same.
#[derive(Clone, Copy)]
pub enum Renderer {
    Fast,
    Plain,
}

fn rate_in(word: &[u8]) -> Option<AutomationRate>
    ensures { result ≡ rate_in word.now }
{
    if word == b"a".as_slice() {
        return Some(AutomationRate::A);
    }
    (word == b"k".as_slice()).then_some(AutomationRate::K)
}

fn next_rate(line: &[u8], at: usize) -> Option<Next<AutomationRate>>
    ensures { next_at (λ r. r) line.now result ≡ taken rate_in (words_from line.now at) }
{
    if line.len() < at {
        return None;
    }
    let to = word_end(line, at);
    let value = rate_in(&line[at..to])?;
    Some(Next {
        value,
        next: to + 1,
    })
}

// The edition's number, or that of the first where the line ends here.
fn next_edition(line: &[u8], at: usize) -> Option<Next<u64>>
    ensures { next_at (λ n. n) line.now result ≡ edition_taken (words_from line.now at) }
{
    if over(line, at) {
        return Some(Next { value: 1, next: at });
    }
    next_count(line, at, 255)
}

// As many numbers as are said, into the front of the slice; where the words behind them begin.
fn next_numbers(line: &[u8], at: usize, count: usize, numbers: &mut [f32]) -> Option<usize>
    requires { count ≤ length numbers.old }
    ensures { numbers_at line.now (take count numbers.new) result ≡ singles count (words_from line.now at) }
{
    let mut from = at;
    for i in 0..count {
        let Next { value, next } = next_real(line, from)?;
        numbers[i] = value;
        from = next;
    }
    Some(from)
}

// How many numbers follow, and those, into the front of the slice.
fn next_counted(line: &[u8], at: usize, most: u64, numbers: &mut [f32]) -> Option<Next<usize>>
    requires { most ≤ length numbers.old }
    ensures { counted_at line.now numbers.new result ≡ counted most (words_from line.now at) }
{
    let Next { value, next } = next_count(line, at, most)?;
    let value = value as usize;
    let next = next_numbers(line, next, value, numbers)?;
    Some(Next { value, next })
}

fn read_make(line: &[u8], at: usize) -> Option<Call>
    ensures { result ≡ make_of (words_from line.now at) }
{
    let Next { value: min, next } = next_real(line, at)?;
    let Next {
        value: default,
        next,
    } = next_real(line, next)?;
    let Next { value: max, next } = next_real(line, next)?;
    let Next { value: rate, next } = next_rate(line, next)?;
    let Next {
        value: edition,
        next,
    } = next_edition(line, next)?;
    over(line, next).then_some(Call::Make {
        bounds: Bounds { min, default, max },
        rate,
        edition,
    })
}

fn read_set(line: &[u8], at: usize) -> Option<Call>
    ensures { result ≡ set_of (words_from line.now at) }
{
    let Next { value, next } = next_real(line, at)?;
    over(line, next).then_some(Call::Set { value })
}

// A value and a time, with which the line ends.
fn read_timed(line: &[u8], at: usize) -> Option<(f32, f64)>
    ensures { result ≡ timed (λ v t. (v, t)) (words_from line.now at) }
{
    let Next { value, next } = next_real(line, at)?;
    let Next { value: time, next } = next_real(line, next)?;
    over(line, next).then_some((value, time))
}

fn read_target(line: &[u8], at: usize) -> Option<Call>
    ensures { result ≡ target_of (words_from line.now at) }
{
    let Next { value, next } = next_real(line, at)?;
    let Next { value: time, next } = next_real(line, next)?;
    let Next {
        value: constant,
        next,
    } = next_real(line, next)?;
    over(line, next).then_some(Call::Target {
        value,
        time,
        constant,
    })
}

// A time, with which the line ends.
fn read_time(line: &[u8], at: usize) -> Option<f64>
    ensures { result ≡ cancelling (λ t. t) (words_from line.now at) }
{
    let Next { value: time, next } = next_real(line, at)?;
    over(line, next).then_some(time)
}

fn read_lend(line: &[u8], at: usize) -> Option<Call>
    ensures { result ≡ lend_of (words_from line.now at) }
{
    let Next { value: len, next } = next_count(line, at, 8192)?;
    over(line, next).then_some(Call::Lend { len: len as usize })
}

fn read_poke(line: &[u8], at: usize) -> Option<Call>
    ensures { result ≡ poke_of (words_from line.now at) }
{
    let Next { value: place, next } = next_count(line, at, 8191)?;
    let Next { value, next } = next_real(line, next)?;
    over(line, next).then_some(Call::Poke {
        place: place as usize,
        value,
    })
}

fn read_load(line: &[u8], at: usize, file: &mut [u8]) -> Option<Call>
    requires { 30000 ≤ length file.old }
    ensures { (numbers : List Float) → Heard (load_of (words_from line.now at)) result numbers file.new }
{
    let Next { value: part, next } = next_count(line, at, 65536)?;
    if part == 0 {
        return None;
    }
    let Next { value: len, next } = next_bytes(line, next, 30000, file)?;
    let Next { value: rate, next } = next_rate(line, next)?;
    let Next {
        value: edition,
        next,
    } = next_edition(line, next)?;
    over(line, next).then_some(Call::Load {
        part: part as usize,
        len: len as usize,
        rate,
        edition,
    })
}

fn read_curve(line: &[u8], at: usize, numbers: &mut [f32]) -> Option<Call>
    requires { 5000 ≤ length numbers.old }
    ensures { (file : List ℕ) → Heard (curve_of (words_from line.now at)) result numbers.new file }
{
    let Next { value: start, next } = next_real(line, at)?;
    let Next {
        value: duration,
        next,
    } = next_real(line, next)?;
    let Next { value: len, next } = next_counted(line, next, 5000, numbers)?;
    over(line, next).then_some(Call::Curve {
        start,
        duration,
        len,
    })
}

fn read_block(line: &[u8], at: usize, by: Renderer, numbers: &mut [f32]) -> Option<Call>
    requires { 4096 ≤ length numbers.old }
    ensures { (file : List ℕ) → Heard (block_of by (words_from line.now at)) result numbers.new file }
{
    let Next { value: time, next } = next_real(line, at)?;
    let Next {
        value: period,
        next,
    } = next_real(line, next)?;
    let Next { value: count, next } = next_count(line, next, u64::MAX)?;
    let Next {
        value: output,
        next,
    } = next_count(line, next, 4096)?;
    let Next { value: input, next } = next_counted(line, next, 4096, numbers)?;
    over(line, next).then_some(Call::Block {
        by,
        time,
        period,
        count: count as usize,
        output: output as usize,
        input,
    })
}

// The calls that change the waiting events.
fn read_scheduling(word: &[u8], line: &[u8], at: usize, numbers: &mut [f32]) -> Option<Call>
    requires { 5000 ≤ length numbers.old }
    ensures { (file : List ℕ) → Heard (found scheduling word.now (words_from line.now at)) result numbers.new file }
{
    if word == b"set".as_slice() {
        return read_set(line, at);
    }
    if word == b"step".as_slice() {
        return read_timed(line, at).map(|(value, time)| Call::Step { value, time });
    }
    if word == b"linear".as_slice() {
        return read_timed(line, at).map(|(value, time)| Call::Linear { value, time });
    }
    if word == b"exponential".as_slice() {
        return read_timed(line, at).map(|(value, time)| Call::Exponential { value, time });
    }
    if word == b"target".as_slice() {
        return read_target(line, at);
    }
    if word == b"curve".as_slice() {
        return read_curve(line, at, numbers);
    }
    if word == b"cancel".as_slice() {
        return read_time(line, at).map(|time| Call::Cancel { time });
    }
    if word == b"hold".as_slice() {
        return read_time(line, at).map(|time| Call::Hold { time });
    }
    None
}

// The call by its first word, and what is behind it from `next` on.
fn read_named(
    word: &[u8],
    line: &[u8],
    next: usize,
    numbers: &mut [f32],
    file: &mut [u8],
) -> Option<Call>
    requires { (5000 ≤ length numbers.old) × (30000 ≤ length file.old) }
    ensures { Heard (found calls word.now (words_from line.now next)) result numbers.new file.new }
{
    if word == b"make".as_slice() {
        return read_make(line, next);
    }
    if word == b"block".as_slice() {
        return read_block(line, next, Renderer::Fast, numbers);
    }
    if word == b"plain".as_slice() {
        return read_block(line, next, Renderer::Plain, numbers);
    }
    if word == b"lend".as_slice() {
        return read_lend(line, next);
    }
    if word == b"poke".as_slice() {
        return read_poke(line, next);
    }
    if word == b"state".as_slice() {
        return over(line, next).then_some(Call::State);
    }
    if word == b"save".as_slice() {
        return over(line, next).then_some(Call::Save);
    }
    if word == b"load".as_slice() {
        return read_load(line, next, file);
    }
    read_scheduling(word, line, next, numbers)
}

// The call of a line, which has no newline; the numbers of a curve or an input are then in front of `numbers`, and a file's bytes in
// front of `file`.
pub fn read_call(line: &[u8], numbers: &mut [f32], file: &mut [u8]) -> Option<Call>
    requires { (5000 ≤ length numbers.old) × (30000 ≤ length file.old) }
    ensures { Heard (call_of line.now) result numbers.new file.new }
{
    if line.is_empty() || line[0] == b'#' {
        return Some(Call::Nothing);
    }
    let to = word_end(line, 0);
    read_named(&line[..to], line, to + 1, numbers, file)
}
