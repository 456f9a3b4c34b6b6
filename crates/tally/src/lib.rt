// The totals of a session as it goes on, kept from what is seen of each call; and they in words.
#![tactic(auto)]

ghost use Rattle.std.specs.Prelude.{◌≡◌, ◌++◌, ℕ, ◌+◌, ◌≤◌, length};
ghost use Rattle.text.specs.Digits.{decimal_of};
ghost use Rattle.text.specs.Put.{Put};
ghost use Rattle.costs.specs.Costs.{nothing, most_steps};
ghost use Rattle.costs.specs.Costs as rule;
ghost use Rattle.costs.specs.Seen.{command_seen, block_seen};
ghost use Rattle.tally.specs.Tally.{capped, kept, steps_text, events_text, cost_text};

use costs::Totals;
use rules::Refusal;
use text::write::{put_count, put_word};

// ---- counting

pub fn none() -> Totals
    ensures { result ≡ nothing }
{
    Totals {
        steps: 0,
        blocks: 0,
        stored: 0,
        finished: 0,
        cancelled: 0,
        turned: 0,
    }
}

fn plus(t: Totals, u: Totals) -> Totals
    ensures { result ≡ kept (rule.plus t u) }
{
    Totals {
        steps: t.steps.saturating_add(u.steps),
        blocks: t.blocks.saturating_add(u.blocks),
        stored: t.stored.saturating_add(u.stored),
        finished: t.finished.saturating_add(u.finished),
        cancelled: t.cancelled.saturating_add(u.cancelled),
        turned: t.turned.saturating_add(u.turned),
    }
}

// Behind a command, by how many events wait before and after it.
pub fn after_command(t: Totals, before: usize, after: usize) -> Totals
    ensures { result ≡ kept (rule.plus t (command_seen before after)) }
{
    let stored = (after as u64).saturating_sub(before as u64);
    let cancelled = (before as u64).saturating_sub(after as u64);
    let cost = Totals {
        steps: 0,
        blocks: 0,
        stored,
        finished: 0,
        cancelled,
        turned: 0,
    };
    plus(t, cost)
}

// Behind a block, by its verdict, the steps that it reports, and how many events wait before and after it.
pub fn after_block(
    t: Totals,
    verdict: Result<(), Refusal>,
    steps: usize,
    before: usize,
    after: usize,
) -> Totals
    ensures { result ≡ kept (rule.plus t (block_seen verdict steps before after)) }
{
    match verdict {
        Ok(()) => {
            let finished = (before as u64).saturating_sub(after as u64);
            // one step ended the walk
            let turned = (steps as u64).saturating_sub(1).saturating_sub(finished);
            let cost = Totals {
                steps: steps as u64,
                blocks: 1,
                stored: 0,
                finished,
                cancelled: 0,
                turned,
            };
            plus(t, cost)
        }
        Err(_) => plus(t, none()),
    }
}

// ---- in words

// A number, and the words behind it.
fn put_part(out: &mut [u8], at: usize, n: u64, words: &[u8]) -> usize
    requires { at + 20 + length words.now ≤ length out.old }
    ensures put { Put out.old at (decimal_of n ++ words.now) out.new result }
    ensures upper_bound { result ≤ at + 20 + length words.now }
{
    let to = put_count(out, at, n);
    put_word(out, to, words)
}

// The steps, and what they are made of.
fn put_steps(out: &mut [u8], at: usize, t: Totals) -> usize
    requires { at + 160 ≤ length out.old }
    ensures put { Put out.old at (steps_text t) out.new result }
    ensures upper_bound { result ≤ at + 160 }
{
    let to = put_word(out, at, b"cost ");
    let to = put_part(out, to, t.steps, b" steps = ");
    let to = put_part(out, to, t.blocks, b" blocks answered + ");
    let to = put_part(out, to, t.finished, b" events finished + ");
    put_part(out, to, t.turned, b" exponentials turned; ")
}

// The most steps that so many events and blocks can take.
fn most_steps(t: Totals) -> u64
    ensures { result ≡ capped (most_steps t) }
{
    t.stored.saturating_add(t.stored).saturating_add(t.blocks)
}

// The events stored, where they are now, and the bound.
fn put_events(out: &mut [u8], at: usize, t: Totals, waiting: u64) -> usize
    requires { at + 170 ≤ length out.old }
    ensures put { Put out.old at (events_text t waiting) out.new result }
    ensures upper_bound { result ≤ at + 170 }
{
    let to = put_part(out, at, t.stored, b" events stored = ");
    let to = put_part(out, to, t.finished, b" finished + ");
    let to = put_part(out, to, t.cancelled, b" cancelled + ");
    let to = put_part(out, to, waiting, b" waiting; at most ");
    put_part(out, to, most_steps(t), b" steps")
}

// The totals in words, so many events waiting.
pub fn put_cost(out: &mut [u8], at: usize, t: Totals, waiting: u64) -> usize
    requires { at + 330 ≤ length out.old }
    ensures put { Put out.old at (cost_text t waiting) out.new result }
    ensures upper_bound { result ≤ at + 330 }
{
    let to = put_steps(out, at, t);
    put_events(out, to, t, waiting)
}
