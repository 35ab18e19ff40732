//! In the tests' table each page p comes to the frame p. Where no table is left, what still answers was remembered.
use crate::onces::Once;
use access::{Access, Kind, Mode};
use memory::{Memory, Words};
use registers::{GuestRoot, HostRoot, Roots};
use stages::World;
use std::process::Abort;
use std::test::Fail;
use tlb::Tlb;
use translator::{Fence, Nested, Translator};

// The words of 128 frames.
const WORDS: usize = 65_536;

// A leaf of the top level for the frames from 0 on: V, R, W, A and D.
const LEAF: u64 = 0xc7;

// The same with G.
const GLOBAL_LEAF: u64 = 0xe7;

// V, X and A alone: a load goes through by MXR, and its grant does not allow the next.
const FETCH_LEAF: u64 = 0x49;

// The roots under an ASID: the first table in the frame 0, the host Bare.
fn roots(asid: u64) -> Option<Roots> {
    Some(Roots {
        guest: GuestRoot::try_from(8 << 60 | asid << 44).ok()?,
        host: HostRoot::try_from(0).ok()?,
    })
}

// The frame that a load of the page comes to, if it comes to one.
fn load<T: Translator, M: Memory>(
    translator: &mut T,
    memory: &M,
    asid: u64,
    page: u16,
) -> Option<u16> {
    let access = Access {
        kind: Kind::Load,
        mode: Mode::Supervisor,
        sum: false,
        mxr: true,
        address: u64::from(page) << 12,
    };
    translator
        .access(&World::new(memory, roots(asid)?), access)
        .outcome
        .ok()
}

// Loads from the pages in turn, by a table of one leaf.
fn visit<T: Translator>(
    rt: &(impl Abort + AllocGlobal),
    translator: &mut T,
    leaf: u64,
    asid: u64,
    pages: &[u16],
) -> Result<(), Fail> {
    let mut words = vec![in rt.alloc(); 0u64; WORDS]?;
    let mut memory = Words { words: &mut words };
    memory.write(0, leaf)?;
    for page in pages {
        assert_eq!(rt; load(translator, &memory, asid, *page), Some(*page));
    }
    Ok(())
}

// What loads of the pages in turn come to where there is no memory: the translator answers from what it remembers.
fn recall<T: Translator, const N: usize>(
    translator: &mut T,
    asid: u64,
    pages: &[u16; N],
) -> [Option<u16>; N] {
    let memory = Words { words: &mut [] };
    let mut answers = [None; N];
    for (answer, page) in answers.iter_mut().zip(pages) {
        *answer = load(translator, &memory, asid, *page);
    }
    answers
}

#[test]
fn a_full_set_is_replaced_in_turn(rt: HostRuntime) -> Result<(), Fail> {
    let mut tlb = Tlb::new(rt.alloc(), Nested)?;
    // 64 replaces 0 in way 0, and 80 replaces 16 in way 1
    visit(&rt, &mut tlb, LEAF, 1, &[0, 16, 32, 48, 64, 80])?;
    // 96 goes to way 2, left empty, and the counter stays at 2, so that 112 replaces 96
    tlb.fence(Fence {
        address: Some(32 << 12),
        asid: None,
    });
    visit(&rt, &mut tlb, LEAF, 1, &[96, 112])?;
    assert_eq!(rt;
        recall(&mut tlb, 1, &[64, 80, 112, 48]),
        [Some(64), Some(80), Some(112), Some(48)]
    );
    assert_eq!(rt;
        recall(&mut tlb, 1, &[0, 16, 32, 96]),
        [None, None, None, None]
    );
    Ok(())
}

#[test]
fn a_grant_takes_the_way_of_its_page_and_asid(rt: HostRuntime) -> Result<(), Fail> {
    let mut tlb = Tlb::new(rt.alloc(), Nested)?;
    visit(&rt, &mut tlb, FETCH_LEAF, 1, &[0, 0, 0])?;
    visit(&rt, &mut tlb, LEAF, 1, &[16, 32, 0, 48])?;
    assert_eq!(rt;
        recall(&mut tlb, 1, &[0, 16, 32, 48]),
        [Some(0), Some(16), Some(32), Some(48)]
    );
    Ok(())
}

#[test]
fn a_page_has_a_way_for_each_asid(rt: HostRuntime) -> Result<(), Fail> {
    let mut tlb = Tlb::new(rt.alloc(), Nested)?;
    visit(&rt, &mut tlb, LEAF, 1, &[5])?;
    visit(&rt, &mut tlb, LEAF, 2, &[5])?;
    assert_eq!(rt; recall(&mut tlb, 1, &[5]), [Some(5)]);
    assert_eq!(rt; recall(&mut tlb, 2, &[5]), [Some(5)]);
    assert_eq!(rt; recall(&mut tlb, 3, &[5]), [None]);
    Ok(())
}

#[test]
fn a_global_grant_answers_every_asid(rt: HostRuntime) -> Result<(), Fail> {
    let mut tlb = Tlb::new(rt.alloc(), Nested)?;
    visit(&rt, &mut tlb, GLOBAL_LEAF, 1, &[5])?;
    tlb.fence(Fence {
        address: None,
        asid: Some(1),
    });
    assert_eq!(rt; recall(&mut tlb, 1, &[5]), [Some(5)]);
    assert_eq!(rt; recall(&mut tlb, 2, &[5]), [Some(5)]);
    tlb.host_fence();
    assert_eq!(rt; recall(&mut tlb, 1, &[5]), [None]);
    Ok(())
}

#[test]
fn a_fence_empties_what_it_covers(rt: HostRuntime) -> Result<(), Fail> {
    let mut tlb = Tlb::new(rt.alloc(), Nested)?;
    visit(&rt, &mut tlb, LEAF, 1, &[1, 2, 3])?;
    visit(&rt, &mut tlb, LEAF, 2, &[1, 2, 3])?;
    // The page of an address under one ASID, then under all
    tlb.fence(Fence {
        address: Some(0x1ff8),
        asid: Some(1),
    });
    tlb.fence(Fence {
        address: Some(0x2000),
        asid: None,
    });
    assert_eq!(rt; recall(&mut tlb, 1, &[1, 2]), [None, None]);
    assert_eq!(rt; recall(&mut tlb, 2, &[2]), [None]);
    assert_eq!(rt; recall(&mut tlb, 1, &[3]), [Some(3)]);
    assert_eq!(rt; recall(&mut tlb, 2, &[1, 3]), [Some(1), Some(3)]);
    // One ASID, then everything
    tlb.fence(Fence {
        address: None,
        asid: Some(2),
    });
    assert_eq!(rt; recall(&mut tlb, 2, &[1, 3]), [None, None]);
    assert_eq!(rt; recall(&mut tlb, 1, &[3]), [Some(3)]);
    tlb.fence(Fence {
        address: None,
        asid: None,
    });
    assert_eq!(rt; recall(&mut tlb, 1, &[3]), [None]);
    Ok(())
}

#[test]
fn a_buffer_fills_from_the_buffer_below(rt: HostRuntime) -> Result<(), Fail> {
    let mut lower = Tlb::new(rt.alloc(), Nested)?;
    visit(&rt, &mut lower, LEAF, 1, &[5, 6])?;
    let mut upper = Tlb::new(rt.alloc(), lower)?;
    assert_eq!(rt; recall(&mut upper, 1, &[5]), [Some(5)]);
    assert_eq!(rt; recall(&mut upper, 1, &[7]), [None]);
    // A fence reaches both
    upper.fence(Fence {
        address: Some(5 << 12),
        asid: None,
    });
    assert_eq!(rt; recall(&mut upper, 1, &[5]), [None]);
    let mut lower = upper.into_below();
    assert_eq!(rt; recall(&mut lower, 1, &[5]), [None]);
    assert_eq!(rt; recall(&mut lower, 1, &[6]), [Some(6)]);
    Ok(())
}

#[test]
fn a_buffer_keeps_what_is_forgotten_below(rt: HostRuntime) -> Result<(), Fail> {
    let mut once = Once { grant: None };
    visit(&rt, &mut once, LEAF, 1, &[5])?;
    let mut tlb = Tlb::new(rt.alloc(), once)?;
    // The grant below answers once, and then that of the buffer does
    assert_eq!(rt; recall(&mut tlb, 1, &[5, 5]), [Some(5), Some(5)]);
    let mut once = tlb.into_below();
    assert_eq!(rt; recall(&mut once, 1, &[5]), [None]);
    Ok(())
}
