//! Plays the trace on standard input over each machine in turn, from zero words, and prints their reports.
#![tactic(auto)]

use judging::{Plan, judge_input};
use piles::{new_shadow, new_tlbs};
use player::play;
use refusal::Refusal;
use std::io::Read;
use translator::{Nested, Translator};

/// The words of a pool: four frames.
const POOL_WORDS: usize = 2048;

// Prints why nothing was played.
fn print_refusal(rt: &impl Print, refusal: Refusal) -> anyhow::Result<()> {
    println!(rt; "refused={}", refusal.number())?;
    Ok(())
}

// Plays the input over one machine, and prints its report under its name.
fn play_one<T: Translator>(
    rt: &(impl Print + AllocGlobal),
    input: &[u8],
    plan: Plan,
    name: &str,
    translator: &mut T,
) -> anyhow::Result<()> {
    let mut image = vec![in rt.alloc(); 0u8; plan.image_len()]?;
    let mut report = vec![in rt.alloc(); 0u8; plan.report_len()]?;
    match play(&mut image, translator, input, &mut report) {
        Ok(len) => {
            println!(rt; "machine={name} frames={}", plan.frames)?;
            rt.write_all(&report[..len])?;
            Ok(())
        }
        Err(refusal) => print_refusal(rt, refusal),
    }
}

// The machines, in their order.
fn play_each(rt: &(impl Print + AllocGlobal), input: &[u8], plan: Plan) -> anyhow::Result<()> {
    play_one(rt, input, plan, "nested", &mut Nested)?;
    let mut shadow = new_shadow(rt.alloc(), POOL_WORDS)?;
    play_one(rt, input, plan, "shadow", &mut shadow)?;
    let mut tlbs = new_tlbs(rt.alloc(), POOL_WORDS)?;
    play_one(rt, input, plan, "tlb+tlb+shadow", &mut tlbs)
}

fn run(rt: &(impl Input + Print + AllocGlobal)) -> anyhow::Result<()> {
    let mut input = Vec::new(rt.alloc());
    rt.reader().read_to_end(&mut input)?;
    match judge_input(&input) {
        Ok(plan) => play_each(rt, &input, plan),
        Err(refusal) => print_refusal(rt, refusal),
    }
}

fn main(rt: HostRuntime) -> anyhow::Result<()> {
    run(&rt)
}
