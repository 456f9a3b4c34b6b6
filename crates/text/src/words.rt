// The words of a line, taken one after the other as numbers. A cursor is the place where the next word
// begins; behind the line's end there is none.
ghost use Rattle.std.specs.Prelude.{◌≡◌, ℕ, ◌≤◌, length};
ghost use Rattle.text.specs.Floats.{float_in};
ghost use Rattle.text.specs.Words.{same_word, end_of, words_from, taken, count_in, next_at, is_over};

use crate::read::{count_in, real_in};
use crate::real::Real;

// What a word says, and where the next word begins.
#[derive(Clone, Copy)]
pub struct Next<T> {
    pub value: T,
    pub next: usize,
}

pub fn same(a: &[u8], b: &[u8]) -> bool
    ensures { result ≡ same_word a.now b.now }
{
    a == b
}

// The place behind a word: a space, or the line's end.
pub fn word_end(line: &[u8], at: usize) -> usize
    requires { at ≤ length line.now }
    ensures { (result ≡ end_of line.now at) × (at ≤ result) × (result ≤ length line.now) }
{
    scan::find(line, at, line.len(), b' ')
}

// Whether no word is left.
pub fn over(line: &[u8], at: usize) -> bool
    ensures { result ≡ is_over (words_from line.now at) }
{
    line.len() < at
}

// A count up to `most`.
pub fn next_count(line: &[u8], at: usize, most: u64) -> Option<Next<u64>>
    ensures { next_at (λ n. n) line.now result ≡ taken (count_in most) (words_from line.now at) }
{
    if line.len() < at {
        return None;
    }
    let to = word_end(line, at);
    let value = count_in(&line[at..to])?;
    if most < value {
        return None;
    }
    Some(Next {
        value,
        next: to + 1,
    })
}

// An f32 or an f64.
pub fn next_real<T: Real>(line: &[u8], at: usize) -> Option<Next<T>>
    ensures { next_at T.value line.now result ≡ taken (float_in T.format) (words_from line.now at) }
{
    if line.len() < at {
        return None;
    }
    let to = word_end(line, at);
    let value = real_in(&line[at..to])?;
    Some(Next {
        value,
        next: to + 1,
    })
}
