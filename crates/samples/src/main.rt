//! Prints the worked examples: loads by the two-stage walk, and calls of a machine over a buffer.
#![tactic(auto)]

mod lines;
mod remembered;
mod walks;

use remembered::print_calls;
use walks::print_walks;

fn run(rt: &(impl Print + AllocGlobal)) -> anyhow::Result<()> {
    print_walks(rt)?;
    print_calls(rt)
}

fn main(rt: HostRuntime) -> anyhow::Result<()> {
    run(&rt)
}
