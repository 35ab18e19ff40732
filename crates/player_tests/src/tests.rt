//! The tests, each with what it plays.
use judging::judge_input;
use player::play;
use refusal::Refusal;
use std::alloc::{AllocError, Global};
use std::iter::repeat_n;
use std::process::Abort;
use std::test::Fail;
use tlb::Tlb;
use translator::{Nested, Translator};

// The bytes of a frame.
const FRAME: usize = 4096;

// A report for as many calls as there may be.
const REPORT: usize = 64 + 128 * 9_999;

// A guest loads, takes the entry away under its own page, and loads again, with no fence between.
const EDIT: &[u8] = b"frames=2
op=w pa=0000000000001000 data=00000000000000c7
op=e
op=g data=8000100000000001
op=l mode=s sum=0 mxr=0 va=0000000000000008
op=s mode=s sum=0 mxr=0 va=0000000000001000 data=0000000000000000
op=l mode=s sum=0 mxr=0 va=0000000000000008
op=z va=all asid=all
op=l mode=s sum=0 mxr=0 va=0000000000000008
";

const WALKED: &[u8] = b"n=1 ans=ok
n=2 ans=ok
n=3 ans=ok
n=4 ans=word data=0000000000000000
n=5 ans=ok
n=6 ans=fault cause=13 va=0000000000000008 gpa=0000000000000000 stage=1 gl=2 hl=3
n=7 ans=ok
n=8 ans=fault cause=13 va=0000000000000008 gpa=0000000000000000 stage=1 gl=2 hl=3
";

const REMEMBERED: &[u8] = b"n=1 ans=ok
n=2 ans=ok
n=3 ans=ok
n=4 ans=word data=0000000000000000
n=5 ans=ok
n=6 ans=word data=0000000000000000
n=7 ans=ok
n=8 ans=fault cause=13 va=0000000000000008 gpa=0000000000000000 stage=1 gl=2 hl=3
";

// Why an input is refused, if it is.
fn refusal_of(input: &[u8]) -> Option<Refusal> {
    judge_input(input).err()
}

// A header, and then so many times the byte.
fn long(heap: Global, header: &[u8], count: usize, byte: u8) -> Result<Vec<u8>, AllocError> {
    let mut text = header.to_vec(heap)?;
    text.extend(repeat_n(byte, count))?;
    Ok(text)
}

// Whether a trace over frames of zeros is played, and has this report.
fn check_report<T: Translator>(
    rt: &(impl Abort + AllocGlobal),
    frames: usize,
    trace: &[u8],
    translator: &mut T,
    expected: &[u8],
) -> Result<(), Fail> {
    let mut image = vec![in rt.alloc(); 0u8; frames.saturating_mul(FRAME)]?;
    let mut report = vec![in rt.alloc(); 0u8; REPORT]?;
    let len = play(&mut image, translator, trace, &mut report)?;
    report.truncate(len);
    assert_eq!(rt; report.as_slice(), expected);
    Ok(())
}

// What a play comes to: why it is refused, if it is, and whether every byte of the image and of the report is as it was.
#[derive(Clone, Copy, PartialEq, Eq, Debug)]
struct Outcome {
    refusal: Option<Refusal>,
    unchanged: bool,
}

const PLAYED: Outcome = Outcome {
    refusal: None,
    unchanged: false,
};

fn refused(refusal: Refusal) -> Outcome {
    Outcome {
        refusal: Some(refusal),
        unchanged: true,
    }
}

// Plays a trace over an image and a report of these lengths.
fn play_over(
    heap: Global,
    image: usize,
    trace: &[u8],
    report: usize,
) -> Result<Outcome, AllocError> {
    let mut image = vec![in heap; 7u8; image]?;
    let mut report = vec![in heap; 5u8; report]?;
    let refusal = play(&mut image, &mut Nested, trace, &mut report).err();
    let unchanged = image.iter().all(|byte| *byte == 7) && report.iter().all(|byte| *byte == 5);
    Ok(Outcome { refusal, unchanged })
}

// What a report calls the refusals of these tests.
#[test]
fn numbers_of_refusals(rt: HostRuntime) {
    assert_eq!(rt; Refusal::Frames.number(), 1);
    assert_eq!(rt; Refusal::Room.number(), 9);
}

#[test]
fn headers_of_inputs(rt: HostRuntime) {
    let bad = Some(Refusal::Frames);
    assert_eq!(rt; refusal_of(b""), bad);
    assert_eq!(rt; refusal_of(b"\n"), bad);
    assert_eq!(rt; refusal_of(b"frames=1"), bad);
    assert_eq!(rt; refusal_of(b"frames=0\n"), bad);
    assert_eq!(rt; refusal_of(b"frames=01\n"), bad);
    assert_eq!(rt; refusal_of(b"frames=1 \n"), bad);
    assert_eq!(rt; refusal_of(b"frames=1\r\n"), bad);
    assert_eq!(rt; refusal_of(b"frames=1\n"), None);
    assert_eq!(rt; refusal_of(b"frames=8\n"), None);
    assert_eq!(rt; refusal_of(b"frames=9\n"), bad);
    assert_eq!(rt; refusal_of(b"frames=18446744073709551617\n"), bad);
}

#[test]
fn calls_of_inputs(rt: HostRuntime) -> Result<(), Fail> {
    let heap = rt.alloc();
    let over = Some(Refusal::Room);
    assert_eq!(rt; refusal_of(&long(heap, b"frames=1\n", 499, b'\n')?), None);
    assert_eq!(rt; refusal_of(&long(heap, b"frames=1\n", 500, b'\n')?), None);
    assert_eq!(rt; refusal_of(&long(heap, b"frames=1\n", 501, b'\n')?), over);
    Ok(())
}

#[test]
fn bytes_of_inputs(rt: HostRuntime) -> Result<(), Fail> {
    let heap = rt.alloc();
    let bad = Some(Refusal::Frames);
    let over = Some(Refusal::Room);
    assert_eq!(rt; refusal_of(&long(heap, b"frames=1\n", 16_374, b'x')?), None);
    assert_eq!(rt; refusal_of(&long(heap, b"frames=1\n", 16_375, b'x')?), None);
    assert_eq!(rt; refusal_of(&long(heap, b"frames=1\n", 16_376, b'x')?), over);
    assert_eq!(rt; refusal_of(&long(heap, b"frames=9\n", 16_376, b'x')?), bad);
    Ok(())
}

#[test]
fn refused_traces_change_nothing(rt: HostRuntime) -> Result<(), Fail> {
    let heap = rt.alloc();
    let bad = refused(Refusal::Frames);
    let over = refused(Refusal::Room);
    assert_eq!(rt; play_over(heap, 4096, b"frames=1\n", 64)?.refusal, None);
    assert_eq!(rt; play_over(heap, 0, b"frames=0\n", 64)?, bad);
    assert_eq!(rt; play_over(heap, 4095, b"frames=1\n", 64)?, bad);
    assert_eq!(rt; play_over(heap, 4097, b"frames=1\n", 64)?, bad);
    assert_eq!(rt; play_over(heap, 8192, b"frames=1\n", 64)?, bad);
    assert_eq!(rt; play_over(heap, 4096, b"frames=1\n", 63)?, over);
    assert_eq!(rt; play_over(heap, 8192, b"frames=1\n", 63)?, bad);
    assert_eq!(rt; play_over(heap, 4096, b"frames=1\nop=y\n", 191)?, over);
    assert_eq!(rt; play_over(heap, 4096, b"frames=1\nop=y\n", 192)?, PLAYED);
    Ok(())
}

#[test]
fn calls_of_traces(rt: HostRuntime) -> Result<(), Fail> {
    let heap = rt.alloc();
    let over = refused(Refusal::Room);
    let most = long(heap, b"frames=1\n", 9_999, b'\n')?;
    let more = long(heap, b"frames=1\n", 10_000, b'\n')?;
    assert_eq!(rt; play_over(heap, 4096, &most, REPORT)?, PLAYED);
    assert_eq!(rt; play_over(heap, 4096, &most, REPORT - 1)?, over);
    assert_eq!(rt; play_over(heap, 4096, &more, REPORT + 128)?, over);
    Ok(())
}

#[test]
fn a_last_line_without_its_end(rt: HostRuntime) -> Result<(), Fail> {
    let trace = b"frames=1\nop=y\n\nop=y";
    let expected = b"n=1 ans=ok\nn=2 ans=refused number=8\nn=3 ans=refused number=8\n";
    check_report(&rt, 1, trace, &mut Nested, expected)
}

#[test]
fn an_edit_that_is_walked(rt: HostRuntime) -> Result<(), Fail> {
    check_report(&rt, 2, EDIT, &mut Nested, WALKED)
}

#[test]
fn an_edit_that_is_not_seen_before_the_fence(rt: HostRuntime) -> Result<(), Fail> {
    let mut buffer = Tlb::new(rt.alloc(), Nested)?;
    check_report(&rt, 2, EDIT, &mut buffer, REMEMBERED)
}
