// Blocks in a loop, for speed/run: the parameter of a state is read once, before the first block. The contract says nothing: it is safe, and ends.
#![tactic(auto)]

use tick::process_by_tick;

// Blocks one behind the other, `advance` apart, each on the parameter that the last one left, or `again` and again on the parameter as it was: the steps of the last.
// The block is called from one place, so that the compiler can put it into the loop.
// As speed_plain but for the call: each is exported to C by itself, and is what is measured.
#[unsafe(no_mangle)]
pub extern "C" fn speed_tick(
    state: &[u64],
    time: f64,
    period: f64,
    count: usize,
    advance: f64,
    again: bool,
    blocks: usize,
    input: &[f32],
    output: &mut [f32],
    store: &mut [f32],
) -> usize {
    let d = coding::decode(state);
    let mut p = d.param;
    let mut t = time;
    let mut steps = 0usize;
    for _ in 0..blocks {
        let r = process_by_tick(p, t, period, count, input, output, store);
        steps = r.steps;
        if !again {
            p = r.param;
        }
        t = t + advance;
    }
    steps
}
