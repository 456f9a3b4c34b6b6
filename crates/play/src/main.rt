// Plays calls as a person writes them: reads them from standard input, a line each, and answers each with a line.
#![tactic(auto)]

ghost use Rattle.std.specs.Prelude.{◌≡◌, ℕ, ◌+◌, ◌*◌, ◌≤◌, length, Float, List, IfOk, MatchResult};
ghost use Rattle.text.specs.Put.{Put};
ghost use Rattle.calls.specs.Language.{call_of};
ghost use Rattle.param.specs.Param.{param_of};
ghost use Rattle.desk.specs.Desk.{SoundDesk, Spoken, unchanged, with_newline};
ghost use Rattle.lines.specs.Lines.{LineIn};
ghost use Rattle.play.specs.Played.{not_read, clash_in, told, strict_turn, cost_turn, read_turn, plain_turn, Lent, Going};

use calls::read_call;
use clashes::{Clash, clash_of, put_clash};
use desk::{Answered, Desk, answer_line, at_first};
use lines::{Line, Lines, last_line, make_room, next_line};
use replies::put_reply;
use std::io;
use std::io::{Read, Stdin, Stdout};
use tally::put_cost;
use text::words::same;
use text::write::{put_byte, put_count, put_word};
use wording::translate;

// What goes on from line to line: `count` lines were taken, the first `at` characters of the answers wait to be written, and
// `more` says that the input has not ended.
// A flag and no Option: desk and lines are wanted also behind the end, for the last line.
#[derive(Clone, Copy)]
struct Played {
    desk: Desk,
    lines: Lines,
    count: u64,
    at: usize,
    more: bool,
}

fn put_not_read(out: &mut [u8], at: usize, n: u64) -> usize
    requires { at + 90 ≤ length out.old }
    ensures put { Put out.old at (not_read n) out.new result }
    ensures upper_bound { result ≤ at + 90 }
{
    let to = put_word(out, at, b"line ");
    let to = put_count(out, to, n);
    put_word(out, to, b" is not read: no call, or a number out of reach")
}

// What the line runs into, should 11 refuse it.
fn clash_in(desk: Desk, line: &[u8], numbers: &mut [f32], file: &mut [u8]) -> Option<Clash>
    requires { SoundDesk desk × (5000 ≤ length numbers.old) × (30000 ≤ length file.old) }
    ensures { result ≡ clash_in (param_of desk.param).queue (call_of line.now) }
{
    let call = read_call(line, numbers, file);
    let p = desk.param;
    clash_of(p.timeline(), call)
}

// An answer of the session language for a person.
fn put_told(out: &mut [u8], at: usize, n: u64, clash: Option<Clash>, answer: &[u8]) -> usize
    requires { at + 4 * length answer.now + 90 ≤ length out.old }
    ensures put { Put out.old at (told n clash answer.now) out.new result }
    ensures upper_bound { result ≤ at + 4 * length answer.now + 90 }
{
    if same(answer, b"unread") {
        return put_not_read(out, at, n);
    }
    if same(answer, b"refused 11") {
        let to = put_word(out, at, answer);
        return put_clash(out, to, clash);
    }
    put_reply(out, at, answer)
}

// The n-th line, in the session language.
fn answer_strict(
    desk: Desk,
    n: u64,
    line: &[u8],
    numbers: &mut [f32],
    store: &mut [f32],
    said: &mut [u8],
    out: &mut [u8],
    at: usize,
) -> Answered
    requires { SoundDesk desk × (5000 ≤ length numbers.old) × (length store.old ≡ 8192) × (42000 ≤ length said.old) × (at + 168200 ≤ length out.old) }
    ensures { Spoken 168200 (with_newline (strict_turn n line.now)) desk store.old out.old at result store.new out.new }
{
    // no line of a person has a file
    let mut file = [0u8; 30000];
    // by the events that wait before the call
    let clash = clash_in(desk, line, numbers, &mut file);
    let r = answer_line(desk, line, numbers, &mut file, store, said, 0);
    let desk = r.desk;
    // without its newline
    let end = r.next - 1;
    let to = put_told(out, at, n, clash, &said[..end]);
    let next = put_byte(out, to, b'\n');
    Answered { desk, next }
}

// The n-th line, which says nothing.
fn answer_not_read(desk: Desk, n: u64, out: &mut [u8], at: usize) -> Answered
    requires { SoundDesk desk × (at + 168200 ≤ length out.old) }
    ensures { (s : List Float) → Spoken 168200 (with_newline (unchanged (not_read n))) desk s out.old at result s out.new }
{
    let to = put_not_read(out, at, n);
    let next = put_byte(out, to, b'\n');
    Answered { desk, next }
}

// What the calls have cost since the last `make`.
fn answer_cost(desk: Desk, out: &mut [u8], at: usize) -> Answered
    requires { SoundDesk desk × (at + 168200 ≤ length out.old) }
    ensures { (s : List Float) → Spoken 168200 (with_newline cost_turn) desk s out.old at result s out.new }
{
    let p = desk.param;
    let to = put_cost(out, at, desk.totals, p.len() as u64);
    let next = put_byte(out, to, b'\n');
    Answered { desk, next }
}

// The n-th line, translated.
fn answer_read(
    desk: Desk,
    n: u64,
    line: &[u8],
    numbers: &mut [f32],
    store: &mut [f32],
    said: &mut [u8],
    out: &mut [u8],
    at: usize,
) -> Answered
    requires { SoundDesk desk × (5000 ≤ length numbers.old) × (length store.old ≡ 8192) × (42000 ≤ length said.old) × (at + 168200 ≤ length out.old) }
    ensures { Spoken 168200 (with_newline (read_turn n line.now)) desk store.old out.old at result store.new out.new }
{
    if same(line, b"cost") {
        return answer_cost(desk, out, at);
    }
    answer_strict(desk, n, line, numbers, store, said, out, at)
}

// The n-th line, as a person writes it.
fn answer_plain(
    desk: Desk,
    n: u64,
    line: &[u8],
    strict: &mut [u8],
    numbers: &mut [f32],
    store: &mut [f32],
    said: &mut [u8],
    out: &mut [u8],
    at: usize,
) -> Answered
    requires { SoundDesk desk × (21 + 17 * length line.now ≤ length strict.old) × (5000 ≤ length numbers.old) × (length store.old ≡ 8192) × (42000 ≤ length said.old) × (at + 168200 ≤ length out.old) }
    ensures { Spoken 168200 (with_newline (plain_turn n line.now)) desk store.old out.old at result store.new out.new }
{
    let Some(to) = translate(strict, line) else {
        return answer_not_read(desk, n, out, at);
    };
    answer_read(desk, n, &strict[..to], numbers, store, said, out, at)
}

// Room for one more answer: where there is none, those that wait are written.
fn room(stdout: Stdout, out: &[u8], at: usize) -> io::Result<usize>
    requires { (at ≤ length out.now) × (168200 ≤ length out.now) }
    ensures { IfOk result (λ n. n + 168200 ≤ length out.now) }
{
    if at <= out.len() - 168200 {
        return Ok(at);
    }
    stdout.write_all(&out[..at])?;
    Ok(0)
}

// The answer to a line, or none where there is none.
fn answer_next(
    stdout: Stdout,
    desk: Desk,
    n: u64,
    line: Option<Line>,
    input: &[u8],
    strict: &mut [u8],
    numbers: &mut [f32],
    store: &mut [f32],
    said: &mut [u8],
    out: &mut [u8],
    at: usize,
) -> io::Result<Answered>
    requires { SoundDesk desk × LineIn input.now line × Lent input.now strict.old numbers.old store.old said.old out.old × (at ≤ length out.old) }
    ensures { MatchResult result (λ r. SoundDesk r.desk × (r.next ≤ length out.old)) (λ _. Lent input.now strict.new numbers.new store.new said.new out.new) }
{
    let at = room(stdout, out, at)?;
    match line {
        Some(Line::At { from, to }) => Ok(answer_plain(
            desk,
            n,
            &input[from..to],
            strict,
            numbers,
            store,
            said,
            out,
            at,
        )),
        Some(Line::Long) => Ok(answer_not_read(desk, n, out, at)),
        None => Ok(Answered { desk, next: at }),
    }
}

// Every line of the input that ends in a newline.
fn answer_lines(
    stdout: Stdout,
    p: Played,
    input: &[u8],
    strict: &mut [u8],
    numbers: &mut [f32],
    store: &mut [f32],
    said: &mut [u8],
    out: &mut [u8],
) -> io::Result<Played>
    requires { Going p.desk p.lines p.at input.now strict.old numbers.old store.old said.old out.old }
    ensures { MatchResult result (λ r. Going r.desk r.lines r.at input.now strict.new numbers.new store.new said.new out.new) (λ _. Lent input.now strict.new numbers.new store.new said.new out.new) }
{
    let mut desk = p.desk;
    let mut lines = p.lines;
    let mut n = p.count;
    let mut at = p.at;
    loop {
        let t = next_line(input, lines);
        let rest = t.lines;
        // no line was taken
        if rest.from == lines.from {
            return Ok(Played {
                desk,
                lines,
                count: n,
                at,
                more: p.more,
            });
        }
        n = n.saturating_add(1);
        let r = answer_next(
            stdout, desk, n, t.line, input, strict, numbers, store, said, out, at,
        )?;
        desk = r.desk;
        lines = rest;
        at = r.next;
    }
}

// One read behind what is left of the input; how many characters came, none at its end.
fn read_more(mut stdin: Stdin, input: &mut [u8], at: usize) -> io::Result<usize>
    requires { at ≤ length input.old }
    ensures { MatchResult result (λ n. at + n ≤ length input.old) (λ _. length input.new ≡ length input.old) }
{
    stdin.read(&mut input[at..])
}

// Answers the lines that the input has, writes all answers, and reads more.
fn turn(
    stdin: Stdin,
    stdout: Stdout,
    p: Played,
    input: &mut [u8],
    strict: &mut [u8],
    numbers: &mut [f32],
    store: &mut [f32],
    said: &mut [u8],
    out: &mut [u8],
) -> io::Result<Played>
    requires { Going p.desk p.lines p.at input.old strict.old numbers.old store.old said.old out.old }
    ensures { MatchResult result (λ r. Going r.desk r.lines r.at input.new strict.new numbers.new store.new said.new out.new) (λ _. (length input.new ≡ length input.old) × Lent input.new strict.new numbers.new store.new said.new out.new) }
{
    let p = answer_lines(stdout, p, &input[..], strict, numbers, store, said, out)?;
    let at = p.at;
    stdout.write_all(&out[..at])?;
    let left = make_room(input, p.lines);
    let to = left.to;
    let got = read_more(stdin, input, to)?;
    let desk = p.desk;
    let lines = Lines {
        from: left.from,
        to: to + got,
        long: left.long,
    };
    Ok(Played {
        desk,
        lines,
        count: p.count,
        at: 0,
        more: 0 < got,
    })
}

// The line that the input ends with, where it has no newline.
fn finish(
    stdout: Stdout,
    p: Played,
    input: &[u8],
    strict: &mut [u8],
    numbers: &mut [f32],
    store: &mut [f32],
    said: &mut [u8],
    out: &mut [u8],
) -> io::Result<()>
    requires { Going p.desk p.lines p.at input.now strict.old numbers.old store.old said.old out.old }
{
    let desk = p.desk;
    let n = p.count.saturating_add(1);
    let line = last_line(p.lines);
    let r = answer_next(
        stdout, desk, n, line, input, strict, numbers, store, said, out, 0,
    )?;
    let end = r.next;
    stdout.write_all(&out[..end])
}

// The whole input, as it comes.
fn serve(
    stdin: Stdin,
    stdout: Stdout,
    input: &mut [u8],
    strict: &mut [u8],
    numbers: &mut [f32],
    store: &mut [f32],
    said: &mut [u8],
    out: &mut [u8],
) -> io::Result<()>
    requires { Lent input.old strict.old numbers.old store.old said.old out.old }
{
    let mut p = Played {
        desk: at_first(),
        lines: Lines {
            from: 0,
            to: 0,
            long: false,
        },
        count: 0,
        at: 0,
        more: true,
    };
    'turns: for _ in 0..u64::MAX {
        if !p.more {
            break;
        }
        p = turn(stdin, stdout, p, input, strict, numbers, store, said, out)?;
    }
    finish(stdout, p, &input[..], strict, numbers, store, said, out)
}

// Zeros for the translation of a line of 65,536 characters.
fn strict_buffer() -> [u8; 1114133]
    ensures { 1114133 ≡ length result }
{
    [0; 1114133]
}

// Zeros for the answers.
fn out_buffer() -> [u8; 262144]
    ensures { 262144 ≡ length result }
{
    [0; 262144]
}

// Zeros for what is read at a time, and for an answer of the session language.
fn large_buffer() -> [u8; 65536]
    ensures { 65536 ≡ length result }
{
    [0; 65536]
}

fn main(rt: HostRuntime) -> io::Result<()> {
    let mut input = large_buffer();
    let mut strict = strict_buffer();
    let mut numbers = [0.0f32; 5000];
    let mut store = [0.0f32; 8192];
    let mut said = large_buffer();
    let mut out = out_buffer();
    serve(
        rt.stdin(),
        rt.stdout(),
        &mut input,
        &mut strict,
        &mut numbers,
        &mut store,
        &mut said,
        &mut out,
    )
}
