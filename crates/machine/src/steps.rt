//! One call of a machine, whichever side it is for.
ghost use Rattle.std.specs.Prelude.{◌≡◌, ℕ};
ghost use Rattle.memory.specs.Keeping.{Keeps};
ghost use Rattle.calls.specs.declared.Call.TheVariants.{Host, Guest};
ghost use Rattle.history.specs.Asks.{host_asks, guest_asks};
ghost use Rattle.history.specs.Runs.{Step, StepBy};
ghost use Rattle.machine.specs.Machines.{moment_of};
ghost use Rattle.sides.specs.Sides.{host_moment, guest_moment};

use crate::machines::Machine;
use calls::{Answer, Call, GuestCall, HostCall};
use memory::Memory;
use refusal::Refusal;
use sides::{GuestSide, HostSide};
use translator::Translator;

const OTHER_SIDE: Answer = Answer::Refused(Refusal::OtherSide);

const UNREADABLE: Answer = Answer::Refused(Refusal::Unreadable);

// A call of the host side, at the host side.
fn host_step<M: Memory, T: Translator>(
    mut side: HostSide,
    memory: &mut M,
    translator: &mut T,
    call: HostCall,
) -> (Machine, Answer)
    ensures stepped { StepBy T.Translator (host_asks call) (host_moment (M.Memory.words memory.old) side.roots) translator.old (Host call) result.1 (moment_of (M.Memory.words memory.new) result.0) translator.new }
    ensures kept { Keeps M.Memory memory.old memory.new }
{
    let answer = match call {
        HostCall::Load { address } => side.load(memory, address).into(),
        HostCall::Store { address, data } => side.store(memory, address, data).into(),
        HostCall::Root { register } => side.root(register).into(),
        HostCall::Fence => side.fence(translator).into(),
        HostCall::Enter => return (Machine::AtGuest(side.enter()), Answer::Done),
    };
    (Machine::AtHost(side), answer)
}

// A call of the guest side, at the guest side.
fn guest_step<M: Memory, T: Translator>(
    mut side: GuestSide,
    memory: &mut M,
    translator: &mut T,
    call: GuestCall,
) -> (Machine, Answer)
    ensures stepped { StepBy T.Translator (guest_asks call) (guest_moment (M.Memory.words memory.old) side.roots) translator.old (Guest call) result.1 (moment_of (M.Memory.words memory.new) result.0) translator.new }
    ensures kept { Keeps M.Memory memory.old memory.new }
{
    let answer = match call {
        GuestCall::Load { target } => side.load(memory, translator, target).into(),
        GuestCall::Store { target, data } => side.store(memory, translator, target, data).into(),
        GuestCall::Fetch { target } => side.fetch(memory, translator, target).into(),
        GuestCall::Fence { fence } => side.fence(translator, fence).into(),
        GuestCall::Root { register } => side.root(register).into(),
        GuestCall::Leave => return (Machine::AtHost(side.leave()), Answer::Done),
    };
    (Machine::AtGuest(side), answer)
}

impl Machine {
    /// Makes one call: of the side whose turn it is, or refused.
    pub fn call<M: Memory, T: Translator>(
        self,
        memory: &mut M,
        translator: &mut T,
        call: Call,
    ) -> (Machine, Answer)
        ensures stepped { Step T.Translator (moment_of (M.Memory.words memory.old) self) translator.old call result.1 (moment_of (M.Memory.words memory.new) result.0) translator.new }
        ensures kept { Keeps M.Memory memory.old memory.new }
    {
        match (self, call) {
            (Machine::AtHost(side), Call::Host(call)) => host_step(side, memory, translator, call),
            (Machine::AtGuest(side), Call::Guest(call)) => guest_step(
                side, memory, translator, call,
            ),
            (machine, Call::Unreadable) => (machine, UNREADABLE),
            (machine, _) => (machine, OTHER_SIDE),
        }
    }
}
