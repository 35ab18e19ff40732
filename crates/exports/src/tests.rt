//! Each function does its work, which its contract leaves open where memory is wanted. Both stages are Bare.
use crate::loads::{cardreader_loads_nested, cardreader_loads_shadow, cardreader_loads_tlb};
use crate::plays::{
    cardreader_play_nested, cardreader_play_shadow, cardreader_play_tlb_tlb_shadow,
};
use crate::results::{Loaded, Played};
use std::process::Abort;
use std::test::Fail;

// The words of a pool: four frames.
const POOL_WORDS: usize = 2048;

// A store by the host, and a load of the same word.
const TRACE: &[u8] = b"frames=1
op=w pa=0000000000000008 data=0000000000000007
op=r pa=0000000000000008
";

const REPORT: &[u8] = b"n=1 ans=ok
n=2 ans=word data=0000000000000007
";

// Whether a play was done, with this report at the head of the buffer.
fn check_play(rt: &impl Abort, played: Played, buffer: &[u8]) {
    assert_eq!(rt; played.status, 0);
    assert_eq!(rt; played.length, REPORT.len() as u64);
    assert!(rt; buffer.starts_with(REPORT));
}

#[test]
fn plays_are_done(rt: HostRuntime) -> Result<(), Fail> {
    let mut image = vec![in rt.alloc(); 0u8; 4096]?;
    let mut report = vec![in rt.alloc(); 0u8; 320]?;
    let played = cardreader_play_nested(&mut image, TRACE, &mut report);
    check_play(&rt, played, &report);
    let mut report = vec![in rt.alloc(); 0u8; 320]?;
    let played = cardreader_play_shadow(rt.alloc(), POOL_WORDS, &mut image, TRACE, &mut report);
    check_play(&rt, played, &report);
    let mut report = vec![in rt.alloc(); 0u8; 320]?;
    let played = cardreader_play_tlb_tlb_shadow(
        rt.alloc(),
        POOL_WORDS,
        &mut image,
        TRACE,
        &mut report,
    );
    check_play(&rt, played, &report);
    Ok(())
}

// Whether loads were done, with this sum.
fn check_loads(rt: &impl Abort, loaded: Loaded, sum: u64) {
    assert_eq!(rt; loaded.status, 0);
    assert_eq!(rt; loaded.sum, sum);
}

#[test]
fn loads_are_done(rt: HostRuntime) -> Result<(), Fail> {
    let mut words = vec![in rt.alloc(); 7u64; 512]?;
    let addresses = [8, 16, 4088];
    check_loads(
        &rt,
        cardreader_loads_nested(&mut words, 0, 0, &addresses),
        21,
    );
    let loaded = cardreader_loads_shadow(rt.alloc(), POOL_WORDS, &mut words, 0, 0, &addresses);
    check_loads(&rt, loaded, 21);
    check_loads(
        &rt,
        cardreader_loads_tlb(rt.alloc(), &mut words, 0, 0, &addresses),
        21,
    );
    Ok(())
}
