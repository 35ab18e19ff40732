//! The tests. The first pages of each 2 MiB come to frame 4 and the second ones to frame 5; the last page comes to frame 4.
use crate::steps::*;
use layout::check_pool;
use shadow::Shadow;
use std::test::Fail;

// The first page of the upper half, and the last page.
const UPPER: u64 = 0xffff_ffc0_0000_0000;

const LAST: u64 = 0xffff_ffff_ffff_f000;

// The guest's leaves of the first pages and of the second ones, and a leaf for frame 6.
const FIRST: usize = 1536;

const SECOND: usize = 1537;

const TO_6: u64 = 0x18cf;

// Pools by their length, and the number that they are refused with, if they are.
static LENGTHS: [(usize, Option<u8>); 9] = [
    (0, Some(2)),
    (512, Some(2)),
    (1536, Some(2)),
    (2047, Some(2)),
    (2048, None),
    (2049, Some(2)),
    (2560, None),
    (262_144, None),
    (262_656, None),
];

#[test]
fn pools_of_many_lengths_are_checked(rt: HostRuntime) -> Result<(), Fail> {
    for (len, number) in LENGTHS.iter() {
        let words = vec![in rt.alloc(); UNTOUCHED; *len]?;
        let refused = check_pool(&words).err().map(|refusal| refusal.number());
        assert!(rt; refused == *number);
    }
    Ok(())
}

// Nothing is remembered, and no word is touched.
static IDLE: [Step; 6] = [
    Step::Load(1, 0, Some(4)),
    Step::Set(FIRST, TO_6),
    Step::Load(1, 0, Some(6)),
    Step::Fence(None, None),
    Step::Fence(Some(0), Some(1)),
    Step::HostFence,
];

// Two leaves of ASID 3, and after a host fence one.
static FILLING: [Step; 6] = [
    Step::Load(3, 0, Some(4)),
    Step::Load(3, 0x1008, Some(5)),
    Step::Set(FIRST, TO_6),
    Step::Load(3, 8, Some(4)),
    Step::HostFence,
    Step::Load(3, 8, Some(6)),
];

// The root, the next unused frame and the three tables, in frames 1 to 3; the old table of leaves was zeroed.
static FILLED: [(usize, u64); 9] = [
    (0, 0),
    (3, 1),
    (15, 0),
    (16, 4),
    (17, UNTOUCHED),
    (512, 0x801),
    (1024, 0xc01),
    (1536, TO_6),
    (1537, 0),
];

#[test]
fn pools_of_every_size(rt: HostRuntime) -> Result<(), Fail> {
    for len in [0, 511, 512, 1536, 2047] {
        check_shadow(&rt, len, 0, &IDLE, &[], 0)?;
    }
    for len in [2048, 2100, 2560, 4096, 262_144, 262_665] {
        check_shadow(&rt, len, 0, &FILLING, &FILLED, 2048)?;
    }
    Ok(())
}

// Three tables are missing, and none of four frames is unused.
static NO_FRAME: [Step; 2] = [Step::Load(1, 0, Some(4)), Step::Load(2, 0, Some(4))];

// Two tables are missing, and one of five frames is unused: none is taken before the reset.
static TOO_FEW: [Step; 2] = [
    Step::Load(1, 0, Some(4)),
    Step::Load(1, 0x4000_0000, Some(4)),
];

// One table is missing, and one of five frames is unused.
static ENOUGH: [Step; 2] = [Step::Load(1, 0, Some(4)), Step::Load(1, 0x20_0000, Some(4))];

#[test]
fn full_pools_are_reset(rt: HostRuntime) -> Result<(), Fail> {
    let words = [(1, 0), (2, 1), (16, 4), (512, 0x801), (1536, 0x10cf)];
    check_shadow(&rt, 2048, 0, &NO_FRAME, &words, 2048)?;
    let words = [(1, 1), (16, 4), (512, 0), (513, 0x801), (1536, 0x10cf)];
    check_shadow(&rt, 2560, 0, &TOO_FEW, &words, 2048)?;
    let words = [
        (1, 1),
        (16, 5),
        (1024, 0xc01),
        (1025, 0x1001),
        (2048, 0x10cf),
    ];
    check_shadow(&rt, 2560, 0, &ENOUGH, &words, 2560)
}

// Fences, and where loads of the first page, the second page, the first page of ASID 2 and that of the upper half come to
// afterwards: to frame 6 where the fence covers them.
static FENCES: [(Option<u64>, Option<u16>, [u16; 4]); 13] = [
    (Some(8), Some(1), [6, 5, 4, 4]),
    (Some(0xfff), None, [6, 5, 6, 4]),
    (None, Some(1), [6, 6, 4, 6]),
    (None, None, [6, 6, 6, 6]),
    (Some(0x1000), Some(1), [4, 6, 4, 4]),
    (Some(UPPER), Some(1), [4, 5, 4, 6]),
    (Some(0x20_0000), None, [4, 5, 4, 4]),
    (Some(0), Some(2), [4, 5, 6, 4]),
    (None, Some(2), [4, 5, 6, 4]),
    (None, Some(16), [4, 5, 4, 4]),
    (Some(0), Some(17), [4, 5, 4, 4]),
    (Some(1 << 39), None, [4, 5, 4, 4]),
    (Some(1 << 63), Some(1), [4, 5, 4, 4]),
];

#[test]
fn each_fence_forgets_what_it_covers(rt: HostRuntime) -> Result<(), Fail> {
    for (address, asid, frames) in FENCES.iter() {
        let steps = [
            Step::Load(1, 0, Some(4)),
            Step::Load(1, 0x1000, Some(5)),
            Step::Load(2, 0, Some(4)),
            Step::Load(1, UPPER, Some(4)),
            Step::Set(FIRST, TO_6),
            Step::Set(SECOND, TO_6),
            Step::Fence(*address, *asid),
            Step::Load(1, 0, Some(frames[0])),
            Step::Load(1, 0x1000, Some(frames[1])),
            Step::Load(2, 0, Some(frames[2])),
            Step::Load(1, UPPER, Some(frames[3])),
        ];
        check_shadow(&rt, 8192, 0, &steps, &[], 8192)?;
    }
    Ok(())
}

// Guest leaves, host roots, and the pool's leaf and next unused frame after a load by SUM and MXR. Without a right
// nothing is written.
static RIGHTS: [(u64, u64, u64, u64); 9] = [
    (0x10cf, 0, 0x10cf, 4),
    (0x1043, 0, 0x10c3, 4),
    (0x10c7, 0, 0x10c7, 4),
    (0x1047, 0, 0x10c3, 4),
    (0x1049, 0, 0x10c9, 4),
    (0x10ff, 0, 0x10df, 4),
    (0x10cf, NO_FETCH, 0x10c7, 4),
    (0x104b, NO_FETCH, 0x10c3, 4),
    (0x1049, NO_FETCH, UNTOUCHED, 1),
];

#[test]
fn leaves_have_the_rights_of_both_stages(rt: HostRuntime) -> Result<(), Fail> {
    for (leaf, host, kept, next) in RIGHTS.iter() {
        let steps = [Step::Set(FIRST, *leaf), Step::Load(1, 0, Some(4))];
        let words = [(1536, *kept), (16, *next)];
        check_shadow(&rt, 2048, *host, &steps, &words, 2048)?;
    }
    Ok(())
}

#[test]
fn every_asid_in_both_halves(rt: HostRuntime) -> Result<(), Fail> {
    let mut shadow = Shadow::new(vec![in rt.alloc(); UNTOUCHED; 262_144]?);
    for asid in 0..16 {
        let steps = [
            Step::Load(asid, 0, Some(4)),
            Step::Load(asid, UPPER, Some(4)),
            Step::Load(asid, LAST, Some(4)),
        ];
        follow(&rt, &mut shadow, 0, &steps)?;
    }
    for asid in 0..16 {
        let steps = [
            Step::Set(FIRST, TO_6),
            Step::Set(2047, 0),
            Step::Load(asid, 0, Some(4)),
            Step::Load(asid, UPPER, Some(4)),
            Step::Load(asid, LAST, Some(4)),
            Step::Fence(None, Some(asid)),
            Step::Load(asid, 0, Some(6)),
            Step::Load(asid, LAST, None),
        ];
        follow(&rt, &mut shadow, 0, &steps)?;
    }
    Ok(())
}
