// Puts calls as a person writes them into the session language, a line each: what `./play --plain` hands to `session`.
#![tactic(auto)]

ghost use Rattle.std.specs.Prelude.{◌≡◌, ◌+◌, ◌*◌, ◌≤◌, length, MatchResult};
ghost use Rattle.lines.specs.Lines.{LineIn};
ghost use Rattle.strict.specs.Strict.{Going};

use lines::{Line, Lines, last_line, make_room, next_line};
use std::io;
use std::io::{Read, Stdin, Stdout};
use wording::translate;

// What goes on from line to line; `more` says that the input has not ended.
// A flag and no Option: the lines are wanted also behind the end, for the last line.
#[derive(Clone, Copy)]
struct Reading {
    lines: Lines,
    more: bool,
}

// A line, translated. Where it says nothing an empty line is written, which is no call of the session language either.
fn write_line(stdout: Stdout, line: &[u8], strict: &mut [u8]) -> io::Result<()>
    requires { 21 + 17 * length line.now ≤ length strict.old }
{
    if let Some(to) = translate(strict, line) {
        stdout.write_all(&strict[..to])?;
    }
    stdout.write_all(b"\n")
}

// A line, or none where there is none.
fn write_next(stdout: Stdout, line: Option<Line>, input: &[u8], strict: &mut [u8]) -> io::Result<()>
    requires { LineIn input.now line × (length input.now ≤ 65536) × (21 + 17 * 65536 ≤ length strict.old) }
{
    match line {
        Some(Line::At { from, to }) => write_line(stdout, &input[from..to], strict),
        Some(Line::Long) => stdout.write_all(b"\n"),
        None => Ok(()),
    }
}

// Every line of the input that ends in a newline; what is left.
fn write_lines(stdout: Stdout, lines: Lines, input: &[u8], strict: &mut [u8]) -> io::Result<Lines>
    requires { Going lines input.now strict.old }
    ensures { MatchResult result (λ l. Going l input.now strict.new) (λ _. length strict.new ≡ length strict.old) }
{
    let mut lines = lines;
    loop {
        let t = next_line(input, lines);
        let rest = t.lines;
        // no line was taken
        if rest.from == lines.from {
            return Ok(lines);
        }
        write_next(stdout, t.line, input, strict)?;
        lines = rest;
    }
}

// One read behind what is left of the input; how many characters came, none at its end.
fn read_more(mut stdin: Stdin, input: &mut [u8], at: usize) -> io::Result<usize>
    requires { at ≤ length input.old }
    ensures { MatchResult result (λ n. at + n ≤ length input.old) (λ _. length input.new ≡ length input.old) }
{
    stdin.read(&mut input[at..])
}

// Writes the lines that the input has, and reads more.
fn turn(
    stdin: Stdin,
    stdout: Stdout,
    lines: Lines,
    input: &mut [u8],
    strict: &mut [u8],
) -> io::Result<Reading>
    requires { Going lines input.old strict.old }
    ensures { MatchResult result (λ r. Going r.lines input.new strict.new) (λ _. (length input.new ≡ length input.old) × (length strict.new ≡ length strict.old)) }
{
    let lines = write_lines(stdout, lines, &input[..], strict)?;
    let left = make_room(input, lines);
    let to = left.to;
    let got = read_more(stdin, input, to)?;
    let lines = Lines {
        from: left.from,
        to: to + got,
        long: left.long,
    };
    Ok(Reading {
        lines,
        more: 0 < got,
    })
}

// The whole input, as it comes, and the line that it ends with, where that has no newline.
fn serve(stdin: Stdin, stdout: Stdout, input: &mut [u8], strict: &mut [u8]) -> io::Result<()>
    requires { (length input.old ≤ 65536) × (21 + 17 * 65536 ≤ length strict.old) }
{
    let mut r = Reading {
        lines: Lines {
            from: 0,
            to: 0,
            long: false,
        },
        more: true,
    };
    'turns: for _ in 0..u64::MAX {
        if !r.more {
            break;
        }
        r = turn(stdin, stdout, r.lines, input, strict)?;
    }
    write_next(stdout, last_line(r.lines), &input[..], strict)
}

// Zeros for the translation of a line of 65,536 characters.
fn strict_buffer() -> [u8; 1114133]
    ensures { 1114133 ≡ length result }
{
    [0; 1114133]
}

// Zeros for what is read at a time.
fn large_buffer() -> [u8; 65536]
    ensures { 65536 ≡ length result }
{
    [0; 65536]
}

fn main(rt: HostRuntime) -> io::Result<()> {
    let mut input = large_buffer();
    let mut strict = strict_buffer();
    serve(rt.stdin(), rt.stdout(), &mut input, &mut strict)
}
