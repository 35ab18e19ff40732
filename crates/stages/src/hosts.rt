//! The host stage, and where table words are read: host memory, and guest memory through the host stage.
ghost use Rattle.std.specs.Prelude.{◌≡◌, ℕ, ◌+◌, ◌*◌, ◌/◌, ◌%◌, ◌^◌, ◌<◌, IfOk};
ghost use Rattle.memory.specs.Words.{read_of};
ghost use Rattle.stages.specs.Host.{host_path, host_stage, host_load, guest_reads, host_reach};

use crate::landings::Landing;
use access::Kind;
use entry::{Frame, Page};
use fault::{HostFault, Unreached};
use memory::{Memory, Outside};
use registers::HostRoot;
use table::{TableSource, walk};

/// Host memory as a source of table words.
#[derive(Drop)]
pub struct HostMemory<'a, M> {
    pub memory: &'a M,
}

impl<'a, M: Memory> TableSource for HostMemory<'a, M> {
    type Fault = Outside;

    ghost reads = { λ s. read_of (M.Memory.words s.memory.now) };

    fn read(&self, frame: Frame, index: u16) -> Result<u64, Outside> {
        self.memory.read(frame.number * 512 + index as u64)
    }
}

/// The guest's physical memory: the host's, reached through the host stage.
#[derive(Drop)]
pub struct GuestMemory<'a, M> {
    pub memory: &'a M,
    pub root: HostRoot,
}

impl<'a, M: Memory> GuestMemory<'a, M> {
    // The path of a guest-physical page, whatever the rights.
    fn path(&self, page: Page) -> Result<Landing, HostFault>
        ensures answer { result ≡ host_path (M.Memory.words self.now.memory.now) self.now.root.register page.number }
        ensures fits { IfOk result (λ at. at.frame < 2 ^ 52) }
    {
        let Some(table) = self.root.table() else {
            return Ok(Landing::bare(page));
        };
        if page.number >> 29 != 0 {
            return Err(HostFault::OutOfRange);
        }
        let source = HostMemory {
            memory: self.memory,
        };
        let leaf = walk(&source, table, page)?;
        Ok(Landing::by_leaf(leaf))
    }

    // The host stage for a kind of access. The guest's goes the same way over rights and faults of its own: one function for both
    // would be handed these as two closures, and be longer than either.
    fn stage(&self, kind: Kind, page: Page) -> Result<Landing, HostFault>
        ensures answer { result ≡ host_stage (M.Memory.words self.now.memory.now) self.now.root.register kind page.number }
        ensures fits { IfOk result (λ at. at.frame < 2 ^ 52) }
    {
        let at = self.path(page)?;
        match at.leaf {
            Some(leaf) if !kind.host_allows(leaf.entry) => Err(HostFault::Denied {
                level: leaf.level,
            }),
            _ => Ok(at),
        }
    }

    // A load of one word.
    fn load(&self, word: u64) -> Result<u64, HostFault>
        requires { word < 2 ^ 61 }
        ensures { result ≡ host_load (M.Memory.words self.now.memory.now) self.now.root.register word }
    {
        let page = Page { number: word / 512 };
        let at = self.stage(Kind::Load, page)?;
        let value = self.memory.read(at.frame * 512 + word % 512)?;
        Ok(value)
    }

    /// The host stage of the final address of an access, whose frame has to lie inside the memory.
    pub(crate) fn reach(&self, kind: Kind, page: Page) -> Result<Landing, HostFault>
        ensures answer { result ≡ host_reach (M.Memory.words self.now.memory.now) self.now.root.register kind page.number }
        ensures inside { IfOk result (λ at. at.frame < 4096) }
    {
        let at = self.stage(kind, page)?;
        if at.frame < self.memory.frames() {
            Ok(at)
        } else {
            Err(HostFault::Word(Outside))
        }
    }
}

// As a source of table words: each is a load.
impl<'a, M: Memory> TableSource for GuestMemory<'a, M> {
    type Fault = Unreached;

    ghost reads = { λ s. guest_reads (M.Memory.words s.memory.now) s.root.register };

    fn read(&self, frame: Frame, index: u16) -> Result<u64, Unreached> {
        let word = frame.number * 512 + index as u64;
        self.load(word).map_err(|fault| Unreached {
            address: word * 8,
            fault,
        })
    }
}
