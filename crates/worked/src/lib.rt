//! The worked examples: walks of a memory, and a machine over a buffer that remembers.
#![tactic(auto)]

ghost use Rattle.std.specs.Prelude.{◌≡◌, IfOk};
ghost use Rattle.worked.specs.Examples.{two_frames, Examples};
ghost use Rattle.worked.specs.Remembered.{editing, remembering};

use access::Mode;
use calls::{Answer, Call, GuestCall, HostCall, Target};
use machine::run;
use memory::Words;
use std::alloc::{AllocError, Global};
use tlb::Tlb;
use translator::{Fence, Nested};

// The guest's root register: ASID 1, the first table in frame 1.
const ROOT: u64 = 0x8000_1000_0000_0001;

// The guest's only table entry, with V R W A D: it maps the first GiB, page p to frame p.
const ENTRY: u64 = 0xc7;

/// The calls of a guest that loads, clears its own table entry, loads again, fences, and loads again.
pub fn calls() -> [Call; 7]
    ensures { result ≡ editing }
{
    let load = GuestCall::Load {
        target: Target::new(Mode::Supervisor, 8),
    };
    let store = GuestCall::Store {
        target: Target::new(Mode::Supervisor, 0x1000),
        data: 0,
    };
    [
        Call::Host(HostCall::Enter),
        Call::Guest(GuestCall::Root { register: ROOT }),
        Call::Guest(load),
        Call::Guest(store),
        Call::Guest(load),
        Call::Guest(GuestCall::Fence {
            fence: Fence::EVERYTHING,
        }),
        Call::Guest(load),
    ]
}

// Two frames of 0, but for the entry, the first word of frame 1.
fn two_frames() -> [u64; 1024]
    ensures { result ≡ two_frames.words }
{
    let mut words = [0; 1024];
    words[512] = ENTRY;
    words
}

/// Gives those calls to a machine over a buffer, in a memory of two frames, and answers what it answers.
///
/// - `examples`: the worked examples hold, all together.
/// - `remembered`: the load after the store is answered from what the buffer remembers, and the one after the fence faults.
#[tactic(auto, using(crate::proofs::Examples::examples))]
pub fn examples_hold(heap: Global) -> Result<Vec<Answer>, AllocError>
    ensures examples { Examples }
    ensures remembered { IfOk result (λ xs. xs.items ≡ remembering) }
{
    let mut words = two_frames();
    let mut memory = Words { words: &mut words };
    let mut buffer = Tlb::new(heap, Nested)?;
    let ended = run(heap, &mut memory, &mut buffer, &calls())?;
    Ok(ended.answers)
}
