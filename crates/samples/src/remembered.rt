//! The worked example of a buffer that remembers: a list of calls.
use crate::lines::Shown;
use worked::{calls, examples_hold};

/// Prints each call, and what it answers.
pub fn print_calls(rt: &(impl Print + AllocGlobal)) -> anyhow::Result<()> {
    let answers = examples_hold(rt.alloc())?;
    println!(rt; "2 frames, word 512 = 00000000000000c7, a machine over a buffer")?;
    for (call, answer) in calls().iter().zip(answers.iter()) {
        println!(rt; "  {}: {}", Shown(*call), Shown(*answer))?;
    }
    Ok(())
}
