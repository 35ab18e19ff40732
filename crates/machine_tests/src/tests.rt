//! Eight frames. The guest's tables are frames 1, 2 and 3; its pages 0, 1 and 2 come to frames 4, 5 and 6, the last by a
//! global leaf. Frame 7 is a table with no entry. The word 1 of frames 4, 5 and 6 is 44, 55 and 66.
use crate::lists::Expected::{Done, Refused, Word};
use crate::lists::*;
use calls::Call;
use machine::run;
use memory::{Memory, Words};
use refusal::Refusal;
use std::process::Abort;
use std::test::Fail;
use tlb::Tlb;
use tlb_tests::Once;
use translator::{Nested, Translator};

const ASID_1: u64 = 0x8000_1000_0000_0001;

const ASID_2_EMPTY: u64 = 0x8000_2000_0000_0007;

// The words that are not zero, each after its index.
const WORDS: [(u64, u64); 8] = [
    (512, 0x801),
    (1024, 0xc01),
    (1536, 0x10c7),
    (1537, 0x14cf),
    (1538, 0x18e7),
    (2049, 44),
    (2561, 55),
    (3073, 66),
];

// A load through the table with no entry.
const NO_ENTRY: Expected = Expected::Fault {
    cause: 13,
    guest_level: 2,
    host_level: 3,
};

// Runs the calls from those tables, and compares each answer with what is expected beside the call.
fn check_run<T: Translator>(
    rt: &(impl Abort + AllocGlobal),
    translator: &mut T,
    list: &[(Call, Expected)],
) -> Result<(), Fail> {
    let mut words = vec![in rt.alloc(); 0; 4096]?;
    let mut memory = Words { words: &mut words };
    for (index, word) in WORDS {
        memory.write(index, word)?;
    }
    let calls: Vec<Call> = list.iter().map(|(call, _)| *call).collect(rt.alloc())?;
    let ended = run(rt.alloc(), &mut memory, translator, &calls)?;
    assert_eq!(rt; ended.answers.len(), list.len());
    for (answer, (_, expected)) in ended.answers.iter().zip(list) {
        assert_eq!(rt; Expected::from(*answer), *expected);
    }
    Ok(())
}

// No table is edited, so every access is settled: each translator answers alike.
#[test]
fn settled_lists_agree(rt: HostRuntime) -> Result<(), Fail> {
    let list = [
        (load(8), Refused(Refusal::OtherSide)),
        (Call::Unreadable, Refused(Refusal::Unreadable)),
        (host_load(0x4008), Word(44)),
        (host_load(0x4004), Refused(Refusal::HostAddress)),
        (host_load(0x8000), Refused(Refusal::HostAddress)),
        (host_root(0x8000_0000_0000_0001), Refused(Refusal::HostRoot)),
        (ENTER, Done),
        (ENTER, Refused(Refusal::OtherSide)),
        (load(8), Word(0)),
        (root(0x8001_0000_0000_0001), Refused(Refusal::GuestRoot)),
        (root(ASID_1), Done),
        (load(8), Word(44)),
        (fetch(8), fault(12, 0, 3)),
        (fetch(0x1008), Word(55)),
        (fence(None, Some(16)), Refused(Refusal::FenceAsid)),
        (store(0x1010, 77), Done),
        (load(0x1010), Word(77)),
        (load(4), fault(4, 3, 3)),
        (load(0x3000), fault(13, 0, 3)),
        (LEAVE, Done),
        (host_load(0x5010), Word(77)),
    ];
    check_run(&rt, &mut Nested, &list)?;
    check_run(&rt, &mut Once { grant: None }, &list)?;
    let mut one = Tlb::new(rt.alloc(), Nested)?;
    check_run(&rt, &mut one, &list)?;
    let mut two = Tlb::new(rt.alloc(), one)?;
    check_run(&rt, &mut two, &list)
}

// The leaf of page 0 is turned to frame 5 with no fence: a buffer answers from frame 4 until a fence covers page 0 of ASID 1.
fn turned_leaf(until_covered: Expected) -> [(Call, Expected); 19] {
    [
        (ENTER, Done),
        (root(ASID_1), Done),
        (load(8), Word(44)),
        (load(0x1008), Word(55)),
        (LEAVE, Done),
        (host_store(0x3000, 0x14c7), Done),
        (ENTER, Done),
        (load(8), until_covered),
        (fence(Some(0x1000), None), Done),
        (load(8), until_covered),
        (fence(Some(8), Some(2)), Done),
        (load(8), until_covered),
        (fence(Some(8), Some(1)), Done),
        (load(8), Word(55)),
        (LEAVE, Done),
        (host_store(0x3000, 0x10c7), Done),
        (HOST_FENCE, Done),
        (ENTER, Done),
        (load(8), Word(44)),
    ]
}

#[test]
fn unsettled_loads_are_remembered(rt: HostRuntime) -> Result<(), Fail> {
    let walked = turned_leaf(Word(55));
    check_run(&rt, &mut Nested, &walked)?;
    check_run(&rt, &mut Once { grant: None }, &walked)?;
    let remembered = turned_leaf(Word(44));
    let mut over_once = Tlb::new(rt.alloc(), Once { grant: None })?;
    check_run(&rt, &mut over_once, &remembered)?;
    let mut two = Tlb::new(rt.alloc(), Tlb::new(rt.alloc(), Nested)?)?;
    check_run(&rt, &mut two, &remembered)
}

// Page 2 is global: under another ASID, whose table is empty, a buffer still answers it, until a fence of every ASID.
fn global_page(until_all_fenced: Expected) -> [(Call, Expected); 13] {
    [
        (ENTER, Done),
        (root(ASID_1), Done),
        (load(0x2008), Word(66)),
        (load(8), Word(44)),
        (root(ASID_2_EMPTY), Done),
        (load(8), NO_ENTRY),
        (load(0x2008), until_all_fenced),
        (fence(None, Some(1)), Done),
        (load(0x2008), until_all_fenced),
        (fence(None, None), Done),
        (load(0x2008), NO_ENTRY),
        (root(ASID_1), Done),
        (load(8), Word(44)),
    ]
}

#[test]
fn global_grants_cross_asids(rt: HostRuntime) -> Result<(), Fail> {
    let walked = global_page(NO_ENTRY);
    check_run(&rt, &mut Nested, &walked)?;
    check_run(&rt, &mut Once { grant: None }, &walked)?;
    let remembered = global_page(Word(66));
    let mut two = Tlb::new(rt.alloc(), Tlb::new(rt.alloc(), Nested)?)?;
    check_run(&rt, &mut two, &remembered)
}

// The refusals of these lists, by their numbers.
#[test]
fn numbers_of_refusals(rt: HostRuntime) {
    assert_eq!(rt; Refusal::GuestRoot.number(), 3);
    assert_eq!(rt; Refusal::HostRoot.number(), 4);
    assert_eq!(rt; Refusal::HostAddress.number(), 5);
    assert_eq!(rt; Refusal::OtherSide.number(), 6);
    assert_eq!(rt; Refusal::FenceAsid.number(), 7);
    assert_eq!(rt; Refusal::Unreadable.number(), 8);
}
