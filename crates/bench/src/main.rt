// Document 01's bench sheet, played: each row as the document writes it, with the samples and steps that the code gives, those of
// the plain renderer, and the first place at which the two differ. Then faults are planted, and must be seen.
#![tactic(auto)]

ghost use Rattle.std.specs.Prelude.{◌≤◌, length};
ghost use Rattle.param.specs.Param.{SoundParam};
ghost use Rattle.bench.specs.Blocks.{SoundBlocks};

use beside::{first_difference, same_answer, same_values};
use param::Processed;
use sheet::{ByPlain, ByProcess, Played, Row};
use std::io;
use std::io::Stdout;

// What is changed of the plain renderer's first block in the self-test, before the two are compared.
#[derive(Clone, Copy)]
enum Fault {
    Sample,
    Steps,
}

fn say(stdout: Stdout, text: &[u8]) -> io::Result<()> {
    stdout.write_all(text)
}

fn say_count(stdout: Stdout, n: u64) -> io::Result<()> {
    stdout.print(n)
}

// A value in plain decimals.
fn say_value(stdout: Stdout, x: f32) -> io::Result<()> {
    let mut text = [0u8; 28];
    let n = decimal::write::put_value(&mut text, 0, x);
    say(stdout, &text[..n])
}

// A block's samples, and its steps.
fn say_block(stdout: Stdout, samples: &[f32], steps: usize) -> io::Result<()> {
    for (i, x) in samples.iter().enumerate() {
        if 0 < i {
            say(stdout, b" ")?;
        }
        say_value(stdout, *x)?;
    }
    say(stdout, b"; ")?;
    say_count(stdout, steps as u64)
}

// The set-up of a row from 2 to 12, in the sheet's words.
fn set_up(n: u64) -> &'static [u8] {
    match n {
        2 => b"step 5 at 2, 4",
        3 => b"step 5 at 2.5, 4",
        4 => b"step 5 at 4, 4",
        5 => b"step 0 at 0, linear 8 at 8, 10",
        6 => b"B5 with hold at 2, 4",
        7 => b"curve 0 4 0 from 0 for 4, 6",
        8 => b"step 0 at 0, exponential 5 at 3, 5",
        9 => b"range \xe2\x88\x9210..3, step 5 at 2, 4",
        10 => b"K-rate, step 5 at 0, 4 and 4",
        11 => b"range \xe2\x88\x921..1, default 0.5, input NaN 0, 2",
        _ => b"B5, count 4, cancel at 5, 4",
    }
}

// What a renderer gives for a row.
fn say_blocks(stdout: Stdout, row: Row, r: &Played) -> io::Result<()>
    requires { SoundBlocks r.now.blocks × (row.count ≤ 10) × (row.again ≤ 10) }
{
    let before = r.blocks.first;
    say_block(stdout, &r.first[..row.count], before.steps)?;
    if row.shows {
        say(stdout, b", intrinsic ")?;
        say_value(stdout, before.param.intrinsic_value())?;
    }
    if 0 < row.again {
        say(stdout, b", then ")?;
        say_block(stdout, &r.second[..row.again], r.blocks.second.steps)?;
    }
    Ok(())
}

// A block by both: the first place at which their samples differ, and whether anything else that they answer does.
fn say_difference(
    stdout: Stdout,
    r: Processed,
    t: Processed,
    output: &[f32],
    samples: &[f32],
) -> io::Result<()>
    requires { SoundParam r.param × SoundParam t.param }
{
    match first_difference(output, samples) {
        None => say(stdout, b"none")?,
        Some(i) => say_count(stdout, i as u64)?,
    }
    if !same_answer(r, t) {
        say(stdout, b" (the answers differ)")?;
    }
    Ok(())
}

// The blocks of a row by both.
fn say_differences(stdout: Stdout, row: Row, r: &Played, t: &Played) -> io::Result<()>
    requires { SoundBlocks r.now.blocks × SoundBlocks t.now.blocks }
{
    say_difference(stdout, r.blocks.first, t.blocks.first, &r.first, &t.first)?;
    if 0 < row.again {
        say(stdout, b", then ")?;
        say_difference(
            stdout,
            r.blocks.second,
            t.blocks.second,
            &r.second,
            &t.second,
        )?;
    }
    Ok(())
}

// A row by the plain renderer, with a fault.
fn play_plain(row: Row, fault: Option<Fault>) -> Played
    ensures { SoundBlocks result.blocks }
{
    let mut played = sheet::play_from_zeros(&ByPlain, row);
    match fault {
        Some(Fault::Sample) => played.first[4] = 4.5,
        Some(Fault::Steps) => played.blocks.first.steps = 0,
        None => {}
    }
    played
}

// A row by both.
fn say_row(stdout: Stdout, row: Row, fault: Option<Fault>) -> io::Result<()>
    requires { (row.count ≤ 10) × (row.again ≤ 10) }
{
    let r = sheet::play_from_zeros(&ByProcess, row);
    let t = play_plain(row, fault);
    say_blocks(stdout, row, &r)?;
    say(stdout, b" | ")?;
    say_blocks(stdout, row, &t)?;
    say(stdout, b" | ")?;
    say_differences(stdout, row, &r, &t)?;
    if !same_values(&r.store, &t.store) {
        say(stdout, b" (the stores differ)")?;
    }
    say(stdout, b" |\n")
}

// A line of the sheet.
fn say_line(stdout: Stdout, n: u64) -> io::Result<()> {
    say(stdout, b"| B")?;
    say_count(stdout, n)?;
    say(stdout, b" | ")?;
    say(stdout, set_up(n))?;
    say(stdout, b" | ")?;
    say_row(stdout, sheet::row_of(n), None)
}

// A kernel, of which there is one.
fn say_falling_power(stdout: Stdout) -> io::Result<()> {
    say(stdout, b"| B13 | falling power of 0 and 2^23 | ")?;
    say_count(stdout, kernels::falling_power(0))?;
    say(stdout, b", ")?;
    say_count(stdout, kernels::falling_power(8388608))?;
    say(stdout, b" | no block | no block |\n")
}

// Faults planted on purpose: were they not seen, `none` would stand in the last column.
fn say_self_test(stdout: Stdout) -> io::Result<()> {
    say(
        stdout,
        b"| self-test | B5, place 4 of the plain samples changed on purpose | ",
    )?;
    say_row(stdout, sheet::row_of(5), Some(Fault::Sample))?;
    say(
        stdout,
        b"| self-test | B5, the plain steps changed on purpose | ",
    )?;
    say_row(stdout, sheet::row_of(5), Some(Fault::Steps))
}

fn main(rt: HostRuntime) -> io::Result<()> {
    let stdout = rt.stdout();
    say(
        stdout,
        b"| | Set-up, count | Samples; steps | By the plain renderer | First place that differs |\n",
    )?;
    say(stdout, b"|---|---|---|---|---|\n")?;
    for n in 2..=12 {
        say_line(stdout, n)?;
    }
    say_falling_power(stdout)?;
    say_self_test(stdout)
}
