//! Lists of calls, over any memory and any translator.
ghost use Rattle.std.specs.Prelude.{◌≡◌, ℕ, IfOk, OnErr};
ghost use Rattle.memory.specs.Keeping.{Keeps};
ghost use Rattle.history.specs.Moments.{start};
ghost use Rattle.history.specs.Settled.{plain_at, AllSettled};
ghost use Rattle.history.specs.Runs.{Played};
ghost use Rattle.history.specs.Theorem.{Agrees, FaithfulRun};
ghost use Rattle.machine.specs.Machines.{moment_of};

use crate::machines::Machine;
use calls::{Answer, Call};
use memory::Memory;
use sides::HostSide;
use std::alloc::{AllocError, Global};
use translator::{Nested, Translator};

/// What a list of calls leaves: an answer for each, and the machine.
#[derive(Drop)]
pub struct Ended {
    pub answers: Vec<Answer>,
    pub machine: Machine,
}

/// Makes a machine and gives it the calls in order.
///
/// - `played`: the run is the translator's own steps in a row.
/// - `agrees`: if every access is settled, each answer and the final words, roots and side are the plain machine's.
/// - `faithful`: settled or not, an access that is not refused answers the walk's own whole fault at that moment, or goes to a
///   frame that the walk gives then or that an earlier bearing moment gives with no covering fence since; every other call goes as
///   in the plain machine.
/// - `unchanged`: want of memory for the answers refuses before anything has changed.
pub fn run<M: Memory, T: Translator>(
    heap: Global,
    memory: &mut M,
    translator: &mut T,
    calls: &[Call],
) -> Result<Ended, AllocError>
    ensures played { IfOk result (λ e. Played T.Translator (start (M.Memory.words memory.old)) translator.old calls.now e.answers.items (moment_of (M.Memory.words memory.new) e.machine) translator.new) }
    ensures agrees { AllSettled (plain_at (start (M.Memory.words memory.old)) calls.now) calls.now → IfOk result (λ e. Agrees (start (M.Memory.words memory.old)) calls.now e.answers.items (moment_of (M.Memory.words memory.new) e.machine)) }
    ensures faithful { IfOk result (λ e. FaithfulRun T.Translator (start (M.Memory.words memory.old)) translator.old calls.now e.answers.items (moment_of (M.Memory.words memory.new) e.machine) translator.new) }
    ensures unchanged { OnErr result ((M.Memory.words memory.new ≡ M.Memory.words memory.old) × (translator.new ≡ translator.old)) }
    ensures kept { Keeps M.Memory memory.old memory.new }
{
    let mut answers = Vec::with_capacity(heap, calls.len())?;
    let mut machine = Machine::AtHost(HostSide::new(translator));
    for call in calls {
        let (next, answer) = machine.call(memory, translator, *call);
        machine = next;
        answers.push_reserved(answer);
    }
    Ok(Ended { answers, machine })
}

/// The same over a translator that remembers nothing: the plain machine, with no premise.
pub fn run_nested<M: Memory>(
    heap: Global,
    memory: &mut M,
    calls: &[Call],
) -> Result<Ended, AllocError>
    ensures agrees { IfOk result (λ e. Agrees (start (M.Memory.words memory.old)) calls.now e.answers.items (moment_of (M.Memory.words memory.new) e.machine)) }
    ensures unchanged { OnErr result (M.Memory.words memory.new ≡ M.Memory.words memory.old) }
    ensures kept { Keeps M.Memory memory.old memory.new }
{
    let mut nested = Nested;
    run(heap, memory, &mut nested, calls)
}
