//! Loads from a list of addresses, and the sum of what they answer.
ghost use Rattle.std.specs.Prelude.{◌≡◌, Ok};
ghost use Rattle.memory.specs.Words.{shown};
ghost use Rattle.sides.specs.Sides.{guest_moment};
ghost use Rattle.piles.specs.Piles.{nested_members, shadow_members, tlb_members, IsNested, NewShadow, NewTlb};
ghost use Rattle.exports.specs.Loads.{plain_sum, LoadsWord, LoadsFrom, FromRun, LoadsOn, LoadsOnNew};

use crate::results::Loaded;
use access::Mode;
use calls::Target;
use memory::Memory;
use piles::{new_shadow, new_tlb};
use refusal::Refusal;
use registers::GuestRoot;
use sides::{GuestSide, HostSide};
use std::alloc::{AllocError, Global};
use translator::{Nested, Translator};

// What both root registers are to be.
#[derive(Clone, Copy)]
struct Registers {
    guest_root: u64,
    host_root: u64,
}

// The word that a load answers, in mode s with SUM and MXR 0; 0 for a fault.
fn load_word<M: Memory, T: Translator>(
    side: &GuestSide,
    memory: &M,
    translator: &mut T,
    address: u64,
) -> u64
    ensures { LoadsWord T.Translator (guest_moment (M.Memory.words memory.now) side.now.roots) translator.old address translator.new result }
{
    let target = Target::new(Mode::Supervisor, address);
    side.load(memory, translator, target).unwrap_or(0)
}

// Loads from each address in turn, and adds the words up.
// In a loop and not a fold: of what a closure changes, here the translator, nothing would be known after the fold.
fn sum_words<M: Memory, T: Translator>(
    side: &GuestSide,
    memory: &M,
    translator: &mut T,
    addresses: &[u64],
) -> u64
    ensures { LoadsFrom T.Translator (guest_moment (M.Memory.words memory.now) side.now.roots) translator.old addresses.now translator.new result }
{
    let mut sum: u64 = 0;
    for &address in addresses {
        sum = sum.wrapping_add(load_word(side, memory, translator, address));
    }
    sum
}

// Makes a machine with these roots and loads at its guest side. The guest's register is judged before the host's.
fn sum_loads<M: Memory, T: Translator>(
    memory: &M,
    translator: &mut T,
    registers: Registers,
    addresses: &[u64],
) -> Result<u64, Refusal>
    ensures plain { result ≡ plain_sum (M.Memory.words memory.now) registers.guest_root registers.host_root addresses.now }
    ensures run { FromRun T.Translator translator.old (M.Memory.words memory.now) registers.guest_root registers.host_root addresses.now result }
{
    let _ = GuestRoot::try_from(registers.guest_root)?;
    let mut host = HostSide::new(translator);
    host.root(registers.host_root)?;
    let mut guest = host.enter();
    guest.root(registers.guest_root)?;
    Ok(sum_words(&guest, memory, translator, addresses))
}

// As for plays, but to C's other result: loads over the translator that was made, and hands back the sum or the number of a refusal. No register is judged where
// none could be made.
#[tactic(auto, unfolding(crate::specs::Loads::LoadsOn))]
fn load_on<M: Memory, T: Translator + Drop>(
    made: Result<T, AllocError>,
    memory: &M,
    registers: Registers,
    addresses: &[u64],
) -> Loaded
    ensures { LoadsOn T.Translator made (M.Memory.words memory.now) registers.guest_root registers.host_root addresses.now result }
{
    let Ok(mut translator) = made else {
        return Loaded::NO_MEMORY;
    };
    Loaded::from(sum_loads(memory, &mut translator, registers, addresses))
}

/// Loads on a machine that walks at every access.
#[unsafe(no_mangle)]
pub extern "C" fn cardreader_loads_nested(
    words: &mut [u64],
    guest_root: u64,
    host_root: u64,
    addresses: &[u64],
) -> Loaded
    ensures loads { LoadsOn nested_members (Ok (record {})) (shown words.old) guest_root host_root addresses.now result }
    ensures kept { words.new ≡ words.old }
{
    let registers = Registers {
        guest_root,
        host_root,
    };
    load_on(Ok(Nested), &words, registers, addresses)
}

/// Loads on a machine that keeps shadow tables in a pool of zero words.
#[unsafe(no_mangle)]
pub extern "C" fn cardreader_loads_shadow(
    heap: Global,
    pool_words: usize,
    words: &mut [u64],
    guest_root: u64,
    host_root: u64,
    addresses: &[u64],
) -> Loaded
    ensures loads { LoadsOnNew shadow_members (NewShadow pool_words) (shown words.old) guest_root host_root addresses.now result }
    ensures kept { words.new ≡ words.old }
{
    let registers = Registers {
        guest_root,
        host_root,
    };
    load_on(new_shadow(heap, pool_words), &words, registers, addresses)
}

/// Loads on a machine with one TLB over the walk.
#[unsafe(no_mangle)]
pub extern "C" fn cardreader_loads_tlb(
    heap: Global,
    words: &mut [u64],
    guest_root: u64,
    host_root: u64,
    addresses: &[u64],
) -> Loaded
    ensures loads { LoadsOnNew tlb_members (NewTlb IsNested) (shown words.old) guest_root host_root addresses.now result }
    ensures kept { words.new ≡ words.old }
{
    let registers = Registers {
        guest_root,
        host_root,
    };
    load_on(new_tlb(heap), &words, registers, addresses)
}
