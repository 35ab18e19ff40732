//! What is seen by loads alone, and not by the words of the pool as in the other tests: pools of every size, exhaustion, fences, every ASID, and both halves of the address space, looked at by loads.
use crate::steps::{put, reach};
use access::{Access, Kind, Mode};
use layout::check_pool;
use shadow::Shadow;
use std::alloc::Global;
use std::test::Fail;
use translator::{Fence, Translator};

// The words of a memory of eight frames.
const WORDS: usize = 4096;

// The first address of the upper half.
const UPPER: u64 = 0xffff_ffc0_0000_0000;

// A leaf for a frame, with V, R, W, X, A and D.
fn leaf(frame: u64) -> u64 {
    frame % 8 * 1024 + 0xcf
}

// Guest tables in frames 1 to 3: the first pages of every 2 MiB of both halves map to frame 4, the next page to frame 5.
fn image(heap: Global) -> Result<Vec<u64>, Fail> {
    let mut words = vec![in heap; 0u64; WORDS]?;
    words[512..1024].fill(2 * 1024 + 1);
    words[1024..1536].fill(3 * 1024 + 1);
    words[1536] = leaf(4);
    words[1537] = leaf(5);
    Ok(words)
}

// The frame that a load of `address` under `asid` comes to, with neither SUM nor MXR.
fn load(shadow: &mut Shadow, words: &mut [u64], asid: u16, address: u64) -> Option<u16> {
    let access = Access {
        kind: Kind::Load,
        mode: Mode::Supervisor,
        sum: false,
        mxr: false,
        address,
    };
    reach(shadow, words, 0, asid, access)
}

// Maps the first pages to another frame, behind the shadow's back.
fn remap(words: &mut [u64], frame: u64) {
    put(words, 1536, leaf(frame));
}

fn fence(address: Option<u64>, asid: Option<u16>) -> Fence {
    Fence { address, asid }
}

// A shadow over a pool of so many words, each 7 before it is made.
fn shadow(heap: Global, len: usize) -> Result<Shadow, Fail> {
    Ok(Shadow::new(vec![in heap; 7u64; len]?))
}

#[test]
fn pools_are_checked(rt: HostRuntime) -> Result<(), Fail> {
    for frames in 0..6 {
        let words = vec![in rt.alloc(); 7u64; 512 * frames]?;
        assert_eq!(rt; check_pool(&words).is_ok(), frames >= 4);
    }
    let words = vec![in rt.alloc(); 7u64; 512 * 4 + 1]?;
    let refused = check_pool(&words).err().map(|refusal| refusal.number());
    assert_eq!(rt; refused, Some(2));
    Ok(())
}

#[test]
fn small_pools_are_left_alone(rt: HostRuntime) -> Result<(), Fail> {
    for frames in 0..4 {
        let mut words = image(rt.alloc())?;
        let mut shadow = shadow(rt.alloc(), 512 * frames + 511)?;
        assert_eq!(rt; load(&mut shadow, &mut words, 1, 0), Some(4));
        remap(&mut words, 6);
        assert_eq!(rt; load(&mut shadow, &mut words, 1, 0), Some(6));
        shadow.fence(fence(None, None));
        shadow.host_fence();
        let pool = shadow.into_pool();
        assert!(rt; pool.iter().all(|word| *word == 7));
    }
    Ok(())
}

#[test]
fn pools_of_every_size_remember(rt: HostRuntime) -> Result<(), Fail> {
    for len in [2048, 2560, 4096, 512 * 512, 2048 + 100, 512 * 513 + 9] {
        let mut words = image(rt.alloc())?;
        let mut shadow = shadow(rt.alloc(), len)?;
        assert_eq!(rt; load(&mut shadow, &mut words, 3, 0), Some(4));
        assert_eq!(rt; load(&mut shadow, &mut words, 3, 0x1000), Some(5));
        remap(&mut words, 6);
        assert_eq!(rt; load(&mut shadow, &mut words, 3, 8), Some(4));
        shadow.host_fence();
        assert_eq!(rt; load(&mut shadow, &mut words, 3, 8), Some(6));
        let pool = shadow.into_pool();
        assert_eq!(rt; pool.get(3).copied(), Some(1));
        assert_eq!(rt; pool.get(16).copied(), Some(4));
        assert_eq!(rt; pool.get(17).copied(), Some(7));
        assert_eq!(rt; pool.get(512).copied(), Some(2 * 1024 + 1));
        assert_eq!(rt; pool.get(1024).copied(), Some(3 * 1024 + 1));
        assert_eq!(rt; pool.get(1536).copied(), Some(leaf(6)));
        assert_eq!(rt;
            pool.last().copied(),
            if len == 2048 { Some(0) } else { Some(7) }
        );
    }
    Ok(())
}

#[test]
fn a_full_pool_is_reset(rt: HostRuntime) -> Result<(), Fail> {
    let mut words = image(rt.alloc())?;
    let mut small = shadow(rt.alloc(), 2048)?;
    assert_eq!(rt; load(&mut small, &mut words, 1, 0), Some(4));
    assert_eq!(rt; load(&mut small, &mut words, 2, 0), Some(4));
    let pool = small.into_pool();
    assert_eq!(rt; pool.get(1).copied(), Some(0));
    assert_eq!(rt; pool.get(2).copied(), Some(1));
    assert_eq!(rt; pool.get(16).copied(), Some(4));

    // Two tables are missing, and one frame is unused: none is taken before the reset.
    let mut middle = shadow(rt.alloc(), 2560)?;
    assert_eq!(rt; load(&mut middle, &mut words, 1, 0), Some(4));
    assert_eq!(rt; load(&mut middle, &mut words, 1, 0x4000_0000), Some(4));
    let pool = middle.into_pool();
    assert_eq!(rt; pool.get(1).copied(), Some(1));
    assert_eq!(rt; pool.get(16).copied(), Some(4));
    assert_eq!(rt; pool.get(512).copied(), Some(0));
    assert_eq!(rt; pool.get(513).copied(), Some(2 * 1024 + 1));
    assert_eq!(rt; pool.get(2048).copied(), Some(7));

    // One table is missing, and one frame is unused.
    let mut last = shadow(rt.alloc(), 2560)?;
    assert_eq!(rt; load(&mut last, &mut words, 1, 0), Some(4));
    assert_eq!(rt; load(&mut last, &mut words, 1, 0x20_0000), Some(4));
    let pool = last.into_pool();
    assert_eq!(rt; pool.get(16).copied(), Some(5));
    assert_eq!(rt; pool.get(1024).copied(), Some(3 * 1024 + 1));
    assert_eq!(rt; pool.get(1025).copied(), Some(4 * 1024 + 1));
    assert_eq!(rt; pool.get(2048).copied(), Some(leaf(4)));
    Ok(())
}

#[test]
fn fences_forget_what_they_cover(rt: HostRuntime) -> Result<(), Fail> {
    let covering = [
        fence(Some(8), Some(1)),
        fence(Some(8), None),
        fence(None, Some(1)),
        fence(None, None),
    ];
    for covers in covering {
        let mut words = image(rt.alloc())?;
        let mut shadow = shadow(rt.alloc(), 4096)?;
        assert_eq!(rt; load(&mut shadow, &mut words, 1, 0), Some(4));
        remap(&mut words, 6);
        shadow.fence(covers);
        assert_eq!(rt; load(&mut shadow, &mut words, 1, 0), Some(6));
    }
    let others = [
        fence(Some(0x1000), Some(1)),
        fence(Some(0x20_0000), None),
        fence(Some(0), Some(2)),
        fence(None, Some(2)),
        fence(None, Some(16)),
        fence(Some(0), Some(17)),
        fence(Some(1 << 40), None),
        fence(Some(1 << 63), Some(1)),
    ];
    for misses in others {
        let mut words = image(rt.alloc())?;
        let mut shadow = shadow(rt.alloc(), 4096)?;
        assert_eq!(rt; load(&mut shadow, &mut words, 1, 0), Some(4));
        remap(&mut words, 6);
        shadow.fence(misses);
        assert_eq!(rt; load(&mut shadow, &mut words, 1, 0), Some(4));
    }
    Ok(())
}

#[test]
fn every_asid_and_both_halves(rt: HostRuntime) -> Result<(), Fail> {
    let mut words = image(rt.alloc())?;
    let mut shadow = shadow(rt.alloc(), 512 * 512)?;
    for asid in 0..16 {
        assert_eq!(rt; load(&mut shadow, &mut words, asid, 0), Some(4));
        assert_eq!(rt; load(&mut shadow, &mut words, asid, UPPER), Some(4));
    }
    remap(&mut words, 6);
    shadow.fence(fence(None, Some(7)));
    shadow.fence(fence(Some(UPPER), Some(8)));
    for asid in 0..16 {
        let lower = if asid == 7 { 6 } else { 4 };
        let upper = if asid == 7 || asid == 8 { 6 } else { 4 };
        assert_eq!(rt; load(&mut shadow, &mut words, asid, 0), Some(lower));
        assert_eq!(rt; load(&mut shadow, &mut words, asid, UPPER), Some(upper));
    }
    shadow.fence(fence(Some(UPPER), None));
    assert_eq!(rt; load(&mut shadow, &mut words, 0, UPPER), Some(6));
    assert_eq!(rt; load(&mut shadow, &mut words, 0, 0), Some(4));
    Ok(())
}
