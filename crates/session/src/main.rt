// Reads calls of the session language from standard input, a line each, and answers each with a line.
#![tactic(auto)]

ghost use Rattle.std.specs.Prelude.{◌≡◌, ℕ, ◌+◌, ◌≤◌, length, MatchResult, None};
ghost use Rattle.desk.specs.Desk.{SoundDesk, Spoken};
ghost use Rattle.lines.specs.Lines.{LineIn, next_of};
ghost use Rattle.session.specs.Session.{Lent, Going, Through, next_turn};

use desk::{Answered, Desk, answer_line, answer_long, at_first};
use lines::{Line, Lines, last_line, make_room, next_line};
use std::io;
use std::io::{Read, Stdin, Stdout};

// What goes on from line to line. The first `at` characters of the answers wait to be written; `more` says that the input has not ended.
// A flag and no Option: desk and lines are wanted also behind the end, for the last line.
#[derive(Clone, Copy)]
struct Session {
    desk: Desk,
    lines: Lines,
    at: usize,
    more: bool,
}

// The answer to a line, or none where there is none.
fn answer_next(
    desk: Desk,
    line: Option<Line>,
    input: &[u8],
    numbers: &mut [f32],
    file: &mut [u8],
    store: &mut [f32],
    out: &mut [u8],
    at: usize,
) -> Answered
    requires { SoundDesk desk × LineIn input.now line × Lent numbers.old file.old store.old out.old × (at + 42000 ≤ length out.old) }
    ensures { Spoken 42000 (next_turn input.now line) desk store.old out.old at result store.new out.new }
{
    match line {
        Some(Line::At { from, to }) => {
            answer_line(desk, &input[from..to], numbers, file, store, out, at)
        }
        Some(Line::Long) => answer_long(desk, out, at),
        None => Answered { desk, next: at },
    }
}

// The lines of the input that end in a newline, until none is left or there is no room for an answer.
fn answer_lines(
    s: Session,
    input: &[u8],
    numbers: &mut [f32],
    file: &mut [u8],
    store: &mut [f32],
    out: &mut [u8],
) -> Session
    requires { Going s.desk s.lines s.at input.now numbers.old file.old store.old out.old }
    ensures going { Going result.desk result.lines result.at input.now numbers.new file.new store.new out.new }
    ensures through { Through input.now s.desk s.lines s.at store.old out.old result.desk result.lines result.at store.new out.new }
    ensures lines_value { result.at + 42000 ≤ length out.old → (next_of input.now result.lines).line ≡ None }
{
    let mut desk = s.desk;
    let mut lines = s.lines;
    let mut at = s.at;
    while at <= out.len() - 42000 {
        let t = next_line(input, lines);
        let rest = t.lines;
        // no line was taken
        if rest.from == lines.from {
            break;
        }
        let r = answer_next(desk, t.line, input, numbers, file, store, out, at);
        desk = r.desk;
        lines = rest;
        at = r.next;
    }
    Session {
        desk,
        lines,
        at,
        more: s.more,
    }
}

// One read behind what is left of the input; how many characters came, none at its end.
fn read_more(mut stdin: Stdin, input: &mut [u8], at: usize) -> io::Result<usize>
    requires { at ≤ length input.old }
    ensures { MatchResult result (λ n. at + n ≤ length input.old) (λ _. length input.new ≡ length input.old) }
{
    stdin.read(&mut input[at..])
}

// Answers lines and writes the answers, or reads more where no whole line is left.
fn turn(
    stdin: Stdin,
    stdout: Stdout,
    s: Session,
    input: &mut [u8],
    numbers: &mut [f32],
    file: &mut [u8],
    store: &mut [f32],
    out: &mut [u8],
) -> io::Result<Session>
    requires { Going s.desk s.lines s.at input.old numbers.old file.old store.old out.old }
    ensures { MatchResult result (λ r. Going r.desk r.lines r.at input.new numbers.new file.new store.new out.new) (λ _. (length input.new ≡ length input.old) × Lent numbers.new file.new store.new out.new) }
{
    let s = answer_lines(s, &input[..], numbers, file, store, out);
    let at = s.at;
    let desk = s.desk;
    if 0 < at {
        stdout.write_all(&out[..at])?;
        let lines = s.lines;
        return Ok(Session {
            desk,
            lines,
            at: 0,
            more: true,
        });
    }
    let left = make_room(input, s.lines);
    let to = left.to;
    let n = read_more(stdin, input, to)?;
    let lines = Lines {
        from: left.from,
        to: to + n,
        long: left.long,
    };
    Ok(Session {
        desk,
        lines,
        at: 0,
        more: 0 < n,
    })
}

// The line that the input ends with, where it has no newline.
fn finish(
    stdout: Stdout,
    s: Session,
    input: &[u8],
    numbers: &mut [f32],
    file: &mut [u8],
    store: &mut [f32],
    out: &mut [u8],
) -> io::Result<()>
    requires { Going s.desk s.lines s.at input.now numbers.old file.old store.old out.old }
{
    let desk = s.desk;
    let line = last_line(s.lines);
    let r = answer_next(desk, line, input, numbers, file, store, out, 0);
    let end = r.next;
    stdout.write_all(&out[..end])
}

// The whole input, as it comes.
fn serve(
    stdin: Stdin,
    stdout: Stdout,
    input: &mut [u8],
    numbers: &mut [f32],
    file: &mut [u8],
    store: &mut [f32],
    out: &mut [u8],
) -> io::Result<()>
    requires { Lent numbers.old file.old store.old out.old }
{
    let mut s = Session {
        desk: at_first(),
        lines: Lines {
            from: 0,
            to: 0,
            long: false,
        },
        at: 0,
        more: true,
    };
    'turns: for _ in 0..u64::MAX {
        if !s.more {
            break;
        }
        s = turn(stdin, stdout, s, input, numbers, file, store, out)?;
    }
    finish(stdout, s, &input[..], numbers, file, store, out)
}

// Zeros for what is read and written at a time.
fn large_buffer() -> [u8; 65536]
    ensures { 65536 ≡ length result }
{
    [0; 65536]
}

fn main(rt: HostRuntime) -> io::Result<()> {
    let mut input = large_buffer();
    let mut out = large_buffer();
    let mut numbers = [0.0f32; 5000];
    let mut file = [0u8; 30000];
    let mut store = [0.0f32; 8192];
    serve(
        rt.stdin(),
        rt.stdout(),
        &mut input,
        &mut numbers,
        &mut file,
        &mut store,
        &mut out,
    )
}
