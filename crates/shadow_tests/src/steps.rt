//! A guest whose tables are edited behind a translator's back, step by step.
use access::{Access, Kind, Mode};
use memory::Words;
use registers::{GuestRoot, HostRoot, Roots};
use shadow::Shadow;
use stages::World;
use std::process::Abort;
use std::test::Fail;
use translator::{Fence, Translator};

/// What every word of a pool holds before a shadow is made.
pub const UNTOUCHED: u64 = 7;

/// A host root, Sv39x4, whose one leaf maps the first GiB to itself with V, R, W, U, A and D: no fetches.
pub const NO_FETCH: u64 = 8 << 60 | 8;

/// A step: data and no closure, since the tests hold their steps in tables.
#[derive(Clone, Copy)]
pub enum Step {
    /// A load under an ASID at an address comes to a frame, or faults.
    Load(u16, u64, Option<u16>),
    /// The memory's word at an index is set.
    Set(usize, u64),
    Fence(Option<u64>, Option<u16>),
    HostFence,
}

// Pointers to the tables in frames 2 and 3 from the roots of both halves, leaves for frames 4 and 5, and the host's leaf.
static TABLES: [(usize, u64); 8] = [
    (512, 0x801),
    (513, 0x801),
    (768, 0x801),
    (1023, 0x801),
    (1536, 0x10cf),
    (1537, 0x14cf),
    (2047, 0x10cf),
    (4096, 0xd7),
];

/// Sets a word, where it is there.
pub fn put(words: &mut [u64], index: usize, word: u64) {
    if let Some(place) = words.get_mut(index) {
        *place = word;
    }
}

// The guest's tables, in frames 1 to 3: every 2 MiB of a GiB have the same pages.
fn write_tables(words: &mut [u64]) {
    if let Some(table) = words.get_mut(1024..1536) {
        table.fill(0xc01);
    }
    for (index, word) in TABLES.iter() {
        put(words, *index, *word);
    }
}

/// The frame that an access under an ASID comes to, with this host root, if it does not fault.
pub fn reach<T: Translator>(
    translator: &mut T,
    words: &mut [u64],
    host: u64,
    asid: u16,
    access: Access,
) -> Option<u16> {
    let register = 8 << 60 | u64::from(asid) << 44 | 1;
    let guest = GuestRoot::try_from(register).ok()?;
    let host = HostRoot::try_from(host).ok()?;
    let memory = Words { words };
    translator
        .access(&World::new(&memory, Roots { guest, host }), access)
        .outcome
        .ok()
}

// A load by the supervisor with SUM and MXR.
fn load(address: u64) -> Access {
    Access {
        kind: Kind::Load,
        mode: Mode::Supervisor,
        sum: true,
        mxr: true,
        address,
    }
}

// Takes one step, and says whether it went as it should.
fn goes<T: Translator>(translator: &mut T, words: &mut [u64], host: u64, step: Step) -> bool {
    match step {
        Step::Load(asid, address, frame) => {
            reach(translator, words, host, asid, load(address)) == frame
        }
        Step::Set(index, word) => {
            put(words, index, word);
            true
        }
        Step::Fence(address, asid) => {
            translator.fence(Fence { address, asid });
            true
        }
        Step::HostFence => {
            translator.host_fence();
            true
        }
    }
}

/// Takes the steps in order, in a memory of twelve frames.
pub fn follow<T: Translator>(
    rt: &(impl Abort + AllocGlobal),
    translator: &mut T,
    host: u64,
    steps: &[Step],
) -> Result<(), Fail> {
    let mut words = vec![in rt.alloc(); 0u64; 6144]?;
    write_tables(words.as_mut_slice());
    for step in steps {
        assert!(rt; goes(translator, words.as_mut_slice(), host, *step));
    }
    Ok(())
}

// Checks words of a pool, by index, and that no word from `rest` on was touched.
fn check_words(rt: &impl Abort, pool: &[u64], wanted: &[(usize, u64)], rest: usize) {
    for (index, value) in wanted {
        assert!(rt; pool.get(*index) == Some(value));
    }
    assert!(rt; pool.iter().skip(rest).all(|word| *word == UNTOUCHED));
}

/// Takes the steps with a shadow over a pool of so many words, and checks the pool afterwards.
pub fn check_shadow(
    rt: &(impl Abort + AllocGlobal),
    len: usize,
    host: u64,
    steps: &[Step],
    wanted: &[(usize, u64)],
    rest: usize,
) -> Result<(), Fail> {
    let mut shadow = Shadow::new(vec![in rt.alloc(); UNTOUCHED; len]?);
    follow(rt, &mut shadow, host, steps)?;
    check_words(rt, &shadow.into_pool(), wanted, rest);
    Ok(())
}
