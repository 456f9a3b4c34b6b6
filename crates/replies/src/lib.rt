// An answer of the session language written for a person: floats in plain numbers, and what a refusal means.
#![tactic(auto)]

ghost use Rattle.std.specs.Prelude.{◌≡◌, ℕ, ◌+◌, ◌*◌, ◌≤◌, length, position};
ghost use Rattle.text.specs.Put.{Put};
ghost use Rattle.text.specs.Words.{words_of};
ghost use Rattle.replies.specs.Plain.{is_mark, parts, plain_field, plain_fields, table, meaning_in, reason, reply};

use decimal::write::{put_time, put_value};
use text::read::real_in;
use text::words::{next_count, same, word_end};
use text::write::{put_byte, put_word};

fn is_mark(c: u8) -> bool
    ensures { result ≡ is_mark c }
{
    matches!(c, b' ' | b':' | b',')
}

// A field in plain numbers: no more than 4 characters for each of its own.
fn put_field(out: &mut [u8], at: usize, word: &[u8]) -> usize
    requires { at + 4 * length word.now ≤ length out.old }
    ensures put { Put out.old at (plain_field word.now) out.new result }
    ensures upper_bound { result ≤ at + 4 * length word.now }
{
    if let Some(x) = real_in(word) {
        return put_value(out, at, x);
    }
    if let Some(x) = real_in(word) {
        return put_time(out, at, x);
    }
    put_word(out, at, word)
}

// The first mark of a line.
fn first_mark(line: &[u8]) -> Option<usize>
    ensures { result ≡ position is_mark line.now }
{
    line.iter().position(|c| is_mark(*c))
}

// Every field of a line, and the marks between them.
fn put_fields(out: &mut [u8], at: usize, line: &[u8]) -> usize
    requires { at + 4 * length line.now ≤ length out.old }
    ensures put { Put out.old at (plain_fields (parts line.now)) out.new result }
    ensures upper_bound { result ≤ at + 4 * length line.now }
{
    let mut rest = line;
    let mut to = at;
    while let Some(len) = first_mark(rest) {
        to = put_field(out, to, &rest[..len]);
        to = put_byte(out, to, rest[len]);
        rest = &rest[len + 1..];
    }
    put_field(out, to, rest)
}

// What document 01's number means, or 02's.
#[tactic(auto, unfolding(crate::specs::Plain::table, crate::specs::Plain::meaning_in))]
fn meaning(number: u64) -> &'static [u8]
    ensures text { result.now ≡ meaning_in table number }
    ensures upper_bound { length result.now ≤ 90 }
{
    match number {
        1 => b": a bound or the default is not finite, or not min <= default <= max",
        2 => b": a value, time, time constant, duration or curve number is not finite",
        3 => b": a scheduled or cancel time is below 0",
        4 => b": time constant below 0, or duration not above 0",
        5 => b": exponential target equal to 0",
        6 => b": curve of fewer than 2 numbers",
        7 => b": 64 events already wait",
        8 => b": waiting curves and the new one exceed 4096 numbers",
        9 => b": block time, period or count out of range, or output or input of a wrong length",
        10 => b": block time below that of the last answered block",
        11 => b": inside a waiting curve, or with a waiting event inside",
        12 => b": the edition is neither 1 nor 2",
        14 => b": the curve store lent is not 4096 numbers long",
        _ => b"",
    }
}

pub fn put_meaning(out: &mut [u8], at: usize, number: u64) -> usize
    requires { at + 90 ≤ length out.old }
    ensures { Put out.old at (meaning_in table number) out.new result × (result ≤ at + 90) }
{
    put_word(out, at, meaning(number))
}

// What a refusal means, where the line is one.
fn put_reason(out: &mut [u8], at: usize, line: &[u8]) -> usize
    requires { at + 90 ≤ length out.old }
    ensures put { Put out.old at (reason (words_of line.now)) out.new result }
    ensures upper_bound { result ≤ at + 90 }
{
    let end = word_end(line, 0);
    if !same(&line[..end], b"refused") {
        return at;
    }
    let Some(number) = next_count(line, end + 1, 99) else {
        return at;
    };
    put_meaning(out, at, number.value)
}

// The line for a person.
pub fn put_reply(out: &mut [u8], at: usize, line: &[u8]) -> usize
    requires { at + 4 * length line.now + 90 ≤ length out.old }
    ensures put { Put out.old at (reply line.now) out.new result }
    ensures upper_bound { result ≤ at + 4 * length line.now + 90 }
{
    let to = put_fields(out, at, line);
    put_reason(out, to, line)
}
