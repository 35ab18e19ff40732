//! The calls of the host side.
ghost use Rattle.std.specs.Prelude.{◌≡◌, ℕ, ◌/◌, ◌%◌, cond, ◌==◌, List, Ok, Err};
ghost use Rattle.memory.specs.Keeping.{Keeps};
ghost use Rattle.refusal.specs.declared.Refusal.TheVariants.{HostAddress};
ghost use Rattle.calls.specs.declared.HostCall.TheVariants as host_call;
ghost use Rattle.stages.specs.Stages.{world_of};
ghost use Rattle.history.specs.Moments.{start};
ghost use Rattle.history.specs.Plain.{on_host};
ghost use Rattle.sides.specs.Sides.{host_moment};
ghost use Rattle.calls.specs.Answers.{word_or_refusal, done_or_refusal};

use crate::sides::{GuestSide, HostSide};
use memory::Memory;
use refusal::Refusal;
use registers::{HostRoot, Roots};
use translator::Translator;

// The index of the word at a host address, which has to be a multiple of 8.
fn index(address: u64) -> Result<u64, Refusal>
    ensures { result ≡ cond (address % 8 == 0) (Ok (address / 8)) (Err HostAddress) }
{
    if address % 8 == 0 {
        Ok(address / 8)
    } else {
        Err(Refusal::HostAddress)
    }
}

impl HostSide {
    /// Makes a machine: both roots 0, at the host side, after one host fence.
    pub fn new<T: Translator>(translator: &mut T) -> HostSide
        ensures made { (ws : List ℕ) → host_moment ws result.roots ≡ start ws }
        ensures fenced { T.Translator.clears translator.old translator.new }
    {
        translator.host_fence();
        HostSide {
            roots: Roots::bare(),
        }
    }

    /// The word at a host address.
    pub fn load<M: Memory>(&self, memory: &M, address: u64) -> Result<u64, Refusal>
        ensures { on_host (world_of (M.Memory.words memory.now) self.now.roots) (host_call.Load address) ≡ (word_or_refusal result, host_moment (M.Memory.words memory.now) self.now.roots) }
    {
        memory
            .read(index(address)?)
            .map_err(|_| Refusal::HostAddress)
    }

    /// Replaces the word at a host address. A refused store changes nothing.
    pub fn store<M: Memory>(&self, memory: &mut M, address: u64, data: u64) -> Result<(), Refusal>
        ensures stored { on_host (world_of (M.Memory.words memory.old) self.now.roots) (host_call.Store address «data») ≡ (done_or_refusal result, host_moment (M.Memory.words memory.new) self.now.roots) }
        ensures kept { Keeps M.Memory memory.old memory.new }
    {
        memory
            .write(index(address)?, data)
            .map_err(|_| Refusal::HostAddress)
    }

    /// Writes the host root register. A refused write changes nothing.
    pub fn root(&mut self, register: u64) -> Result<(), Refusal>
        ensures { (ws : List ℕ) → on_host (world_of ws self.old.roots) (host_call.Root register) ≡ (done_or_refusal result, host_moment ws self.new.roots) }
    {
        self.roots.host = HostRoot::try_from(register)?;
        Ok(())
    }

    /// Forgets everything that the translator remembers.
    pub fn fence<T: Translator>(&self, translator: &mut T)
        ensures { T.Translator.clears translator.old translator.new }
    {
        translator.host_fence();
    }

    /// Gives the host side up for the guest side.
    pub fn enter(self) -> GuestSide
        ensures { result.roots ≡ self.roots }
    {
        GuestSide { roots: self.roots }
    }
}
