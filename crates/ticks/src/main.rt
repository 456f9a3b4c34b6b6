// The bench sheet played twice, by `process` and by a tick of a parameter that is lent, and every result compared.
#![tactic(auto)]

use beside::{same_answer, same_values};
use sheet::{ByProcess, ByTick, Row};
use std::io;
use std::io::Stdout;

// A row by either, each with a parameter and a store of its own.
fn is_same(row: Row) -> bool {
    let r = sheet::play_from_zeros(&ByProcess, row);
    let t = sheet::play_from_zeros(&ByTick, row);
    let samples = same_values(&r.first, &t.first) & same_values(&r.second, &t.second);
    let answers = same_answer(r.blocks.first, t.blocks.first)
        & same_answer(r.blocks.second, t.blocks.second);
    samples & answers & same_values(&r.store, &t.store)
}

fn say_row(stdout: Stdout, n: u64) -> io::Result<()> {
    if is_same(sheet::row_of(n)) {
        println!(stdout; "B{n} same")
    } else {
        println!(stdout; "B{n} differs")
    }
}

fn main(rt: HostRuntime) -> io::Result<()> {
    let stdout = rt.stdout();
    for n in 2..=12 {
        say_row(stdout, n)?;
    }
    Ok(())
}
