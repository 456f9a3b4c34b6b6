// The outside vectors: each line of standard input is worked out and compared; a line that does not hold is named, then the lines are counted.
#![tactic(auto)]

ghost use Rattle.std.specs.Prelude.{◌≤◌, length, MatchResult, ◌≡◌};

use std::io;
use std::io::{Read, Stdin, Stdout};

// Reads until the buffer is full or the input ends; how many bytes came.
// A while: it goes on by what a read brought, not by one.
fn read_full(mut stdin: Stdin, buf: &mut [u8]) -> io::Result<usize>
    ensures { MatchResult result (λ n. n ≤ length buf.new) (λ _. length buf.new ≡ length buf.old) }
{
    let mut done = 0;
    while done < buf.len() {
        let n = stdin.read(&mut buf[done..])?;
        if n == 0 {
            break;
        }
        done += n;
    }
    Ok(done)
}

// The next line, or none where the input has ended.
fn next_line(stdin: Stdin) -> io::Result<Option<[u8; 70]>> {
    let mut line = [0u8; 70];
    let n = read_full(stdin, &mut line)?;
    Ok(if n == 0 { None } else { Some(line) })
}

// Whether a line holds; where it does not, that is said by its number.
fn check(stdout: Stdout, line: &[u8; 70], number: u64) -> io::Result<bool> {
    let holds = vector_line::holds(line);
    if !holds {
        println!(stdout; "line {number} does not hold")?;
    }
    Ok(holds)
}

fn main(rt: HostRuntime) -> io::Result<()> {
    let stdin = rt.stdin();
    let stdout = rt.stdout();
    let mut lines = 0u64;
    let mut wrong = 0u64;
    for passed in 0..1000000u64 {
        let Some(line) = next_line(stdin)? else {
            break;
        };
        lines = passed + 1;
        if !check(stdout, &line, lines)? {
            wrong += 1;
        }
    }
    println!(stdout; "{lines} lines, {wrong} do not hold")
}
