//! The calls of the guest side. Each load, store and fetch is one access of the translator.
ghost use Rattle.std.specs.Prelude.{◌≡◌, ◌≢◌, ℕ, List, slice_index};
ghost use Rattle.memory.specs.Keeping.{Keeps};
ghost use Rattle.access.specs.declared.accesses.Kind.TheVariants.{Load, Store, Fetch};
ghost use Rattle.stages.specs.Stages.{world_of};
ghost use Rattle.translator.specs.declared.replies.Reply.{Reply};
ghost use Rattle.calls.specs.declared.GuestCall.TheVariants as guest_call;
ghost use Rattle.calls.specs.Targets.{access_of};
ghost use Rattle.history.specs.Plain.{place_of, on_guest, is_fence_asid};
ghost use Rattle.history.specs.Runs.{Reached};
ghost use Rattle.sides.specs.Sides.{guest_moment};
ghost use Rattle.calls.specs.Answers.{done_or_refusal, word_or_fault, done_or_fault};
ghost use Rattle.sides.specs.Fences.{FenceDone};

use crate::sides::{GuestSide, HostSide};
use access::{Access, Kind};
use calls::Target;
use fault::Fault;
use memory::Memory;
use refusal::Refusal;
use registers::{GuestRoot, Roots};
use stages::World;
use translator::{Fence, Translator};

// The index of the word that an access goes to in a frame.
fn place(access: Access, frame: u16) -> u64
    ensures { result ≡ place_of access frame }
{
    frame as u64 * 512 + access.word() as u64
}

// The word that an access goes to in a frame; 0 past the end of a memory that has become shorter, as definitions read a list.
fn word_at<M: Memory>(memory: &M, access: Access, frame: u16) -> u64
    ensures { result ≡ slice_index (M.Memory.words memory.now) (place_of access frame) }
{
    memory.read(place(access, frame)).unwrap_or(0)
}

// One access of the translator: the frame that it answers, or the whole fault.
fn reach<M: Memory, T: Translator>(
    memory: &M,
    translator: &mut T,
    roots: Roots,
    access: Access,
) -> Result<u16, Fault>
    ensures { (r : Reply) × T.Translator.answers translator.old (world_of (M.Memory.words memory.now) roots) access r translator.new × (result ≡ r.outcome) }
{
    let world = World::new(memory, roots);
    translator.access(&world, access).outcome
}

// Whether the ASID of a fence is all, or at most 15.
fn is_fence_asid(asid: Option<u16>) -> bool
    ensures { result ≡ is_fence_asid asid }
{
    asid.is_none_or(|asid| asid <= 15)
}

impl GuestSide {
    // The word that an access reads, or the whole fault.
    fn word<M: Memory, T: Translator>(
        &self,
        memory: &M,
        translator: &mut T,
        access: Access,
    ) -> Result<u64, Fault>
        requires { access.kind ≢ Store }
        ensures { Reached T.Translator (guest_moment (M.Memory.words memory.now) self.now.roots) translator.old access 0 (word_or_fault result) (guest_moment (M.Memory.words memory.now) self.now.roots) translator.new }
    {
        let frame = reach(memory, translator, self.roots, access)?;
        Ok(word_at(memory, access, frame))
    }

    // Each call of the machine has a function of its name, though a fetch differs from a load in its kind alone.

    /// The word that the guest loads, or the whole fault.
    pub fn load<M: Memory, T: Translator>(
        &self,
        memory: &M,
        translator: &mut T,
        target: Target,
    ) -> Result<u64, Fault>
        ensures { Reached T.Translator (guest_moment (M.Memory.words memory.now) self.now.roots) translator.old (access_of Load target) 0 (word_or_fault result) (guest_moment (M.Memory.words memory.now) self.now.roots) translator.new }
    {
        self.word(memory, translator, target.access(Kind::Load))
    }

    /// The word that the guest fetches, or the whole fault.
    pub fn fetch<M: Memory, T: Translator>(
        &self,
        memory: &M,
        translator: &mut T,
        target: Target,
    ) -> Result<u64, Fault>
        ensures { Reached T.Translator (guest_moment (M.Memory.words memory.now) self.now.roots) translator.old (access_of Fetch target) 0 (word_or_fault result) (guest_moment (M.Memory.words memory.now) self.now.roots) translator.new }
    {
        self.word(memory, translator, target.access(Kind::Fetch))
    }

    /// Stores a word, or answers the whole fault and changes no word.
    pub fn store<M: Memory, T: Translator>(
        &self,
        memory: &mut M,
        translator: &mut T,
        target: Target,
        data: u64,
    ) -> Result<(), Fault>
        ensures reached { Reached T.Translator (guest_moment (M.Memory.words memory.old) self.now.roots) translator.old (access_of Store target) «data» (done_or_fault result) (guest_moment (M.Memory.words memory.new) self.now.roots) translator.new }
        ensures kept { Keeps M.Memory memory.old memory.new }
    {
        let access = target.access(Kind::Store);
        let frame = reach(memory, translator, self.roots, access)?;
        let _ = memory.write(place(access, frame), data);
        Ok(())
    }

    /// Forgets what the fence covers. A refused fence changes nothing.
    pub fn fence<T: Translator>(&self, translator: &mut T, fence: Fence) -> Result<(), Refusal>
        ensures { FenceDone T.Translator.forgets translator.old fence result translator.new }
    {
        if !is_fence_asid(fence.asid) {
            return Err(Refusal::FenceAsid);
        }
        translator.fence(fence);
        Ok(())
    }

    /// Writes the guest root register. A refused write changes nothing.
    pub fn root(&mut self, register: u64) -> Result<(), Refusal>
        ensures { (ws : List ℕ) → on_guest (world_of ws self.old.roots) (guest_call.Root register) ≡ (done_or_refusal result, guest_moment ws self.new.roots) }
    {
        self.roots.guest = GuestRoot::try_from(register)?;
        Ok(())
    }

    /// Gives the guest side up for the host side.
    pub fn leave(self) -> HostSide
        ensures { result.roots ≡ self.roots }
    {
        HostSide { roots: self.roots }
    }
}
