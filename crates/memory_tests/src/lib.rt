//! Tests of memories at their boundaries.
#![tactic(auto)]

use memory::{Bytes, Joined, Memory, Outside, Words};
use std::test::Fail;

// The words in 4,096 frames.
const MOST_WORDS: u64 = 2_097_152;

#[test]
fn words_show_whole_frames(rt: HostRuntime) -> Result<(), Fail> {
    for (count, frames) in [(0, 0), (511, 0), (512, 1), (513, 1)] {
        let mut words = vec![in rt.alloc(); 0; count]?;
        let memory = Words { words: &mut words };
        assert_eq!(rt; memory.frames(), frames, "{count} words");
    }
    Ok(())
}

// One loop for words and bytes would need a bound on every loan of a slice, which is no plainer than two.
#[test]
fn bytes_show_whole_frames(rt: HostRuntime) -> Result<(), Fail> {
    for (count, frames) in [(4095, 0), (4096, 1), (4097, 1)] {
        let mut bytes = vec![in rt.alloc(); 0; count]?;
        let memory = Bytes { bytes: &mut bytes };
        assert_eq!(rt; memory.frames(), frames, "{count} bytes");
    }
    Ok(())
}

#[test]
fn a_word_past_the_frames_is_refused(rt: HostRuntime) {
    let mut words = [7u64; 513];
    {
        let mut memory = Words { words: &mut words };
        assert_eq!(rt; memory.write(511, 8), Ok(()));
        assert_eq!(rt; memory.read(511), Ok(8));
        assert_eq!(rt; memory.read(512), Err(Outside));
        assert_eq!(rt; memory.write(512, 8), Err(Outside));
    }
    assert_eq!(rt; words[510], 7);
    assert_eq!(rt; words[511], 8);
    assert_eq!(rt; words[512], 7);
}

#[test]
fn bytes_are_little_endian(rt: HostRuntime) {
    let mut bytes = [0u8; 4096];
    bytes[0..8].copy_from_slice(&[1, 2, 3, 4, 5, 6, 7, 8]);
    let memory = Bytes { bytes: &mut bytes };
    assert_eq!(rt; memory.read(0), Ok(0x0807_0605_0403_0201));
    assert_eq!(rt; memory.read(1), Ok(0));
    assert_eq!(rt; memory.read(512), Err(Outside));
}

#[test]
fn a_write_to_bytes_leaves_its_neighbours(rt: HostRuntime) {
    let mut bytes = [9u8; 4097];
    {
        let mut memory = Bytes { bytes: &mut bytes };
        assert_eq!(rt; memory.write(1, 0x1122_3344_5566_7788), Ok(()));
        assert_eq!(rt; memory.write(512, 0), Err(Outside));
    }
    assert_eq!(rt; bytes[7], 9);
    assert_eq!(rt; bytes[8], 0x88);
    assert_eq!(rt; bytes[15], 0x11);
    assert_eq!(rt; bytes[16], 9);
    assert_eq!(rt; bytes[4096], 9);
}

#[test]
fn words_over_bytes(rt: HostRuntime) {
    let mut words = [7u64; 513];
    let mut bytes = [1u8; 4096];
    {
        let mut memory = Joined {
            first: Words { words: &mut words },
            second: Bytes { bytes: &mut bytes },
        };
        assert_eq!(rt; memory.frames(), 2);
        assert_eq!(rt; memory.read(511), Ok(7));
        assert_eq!(rt; memory.read(512), Ok(0x0101_0101_0101_0101));
        assert_eq!(rt; memory.write(512, 2), Ok(()));
        assert_eq!(rt; memory.write(1024, 2), Err(Outside));
    }
    assert_eq!(rt; words[512], 7);
    assert_eq!(rt; bytes[0], 2);
    assert_eq!(rt; bytes[1], 0);
    assert_eq!(rt; bytes[8], 1);
}

#[test]
fn joined_memories_nest(rt: HostRuntime) {
    let mut low = [1u64; 512];
    let mut middle = [2u64; 512];
    let mut high = [3u8; 4096];
    let mut pair = Joined {
        first: &mut low[..],
        second: &mut middle[..],
    };
    let mut memory = Joined {
        first: &mut pair,
        second: &mut high[..],
    };
    assert_eq!(rt; memory.frames(), 3);
    assert_eq!(rt; memory.write(512, 5), Ok(()));
    assert_eq!(rt; memory.read(511), Ok(1));
    assert_eq!(rt; memory.read(512), Ok(5));
    assert_eq!(rt; memory.read(1024), Ok(0x0303_0303_0303_0303));
    assert_eq!(rt; memory.read(1536), Err(Outside));
}

#[test]
fn words_show_4096_frames(rt: HostRuntime) -> Result<(), Fail> {
    let mut words = vec![in rt.alloc(); 7u64; 2_097_664]?;
    let mut memory = Words { words: &mut words };
    assert_eq!(rt; memory.frames(), 4096);
    assert_eq!(rt; memory.read(MOST_WORDS - 1), Ok(7));
    assert_eq!(rt; memory.read(MOST_WORDS), Err(Outside));
    assert_eq!(rt; memory.write(MOST_WORDS, 8), Err(Outside));
    assert_eq!(rt; memory.words.get(2_097_152).copied(), Some(7));
    Ok(())
}

#[test]
fn joined_memories_show_4096_frames(rt: HostRuntime) -> Result<(), Fail> {
    let mut low = vec![in rt.alloc(); 1u64; 1_536_000]?;
    let mut high = vec![in rt.alloc(); 2u64; 1_536_000]?;
    let mut memory = Joined {
        first: low.as_mut_slice(),
        second: high.as_mut_slice(),
    };
    assert_eq!(rt; memory.frames(), 4096);
    assert_eq!(rt; memory.read(1_535_999), Ok(1));
    assert_eq!(rt; memory.write(1_536_000, 5), Ok(()));
    assert_eq!(rt; memory.second.read(0), Ok(5));
    assert_eq!(rt; memory.read(MOST_WORDS - 1), Ok(2));
    assert_eq!(rt; memory.write(MOST_WORDS, 5), Err(Outside));
    assert_eq!(rt; memory.second.read(561_152), Ok(2));
    Ok(())
}
