//! Lines of no call: each kind of damage, at each byte and at each field.
use calls::Call;
use reader::read_call;
use std::alloc::{AllocError, Global};
use std::process::Abort;
use std::test::Fail;

// Whether the line is of no call.
fn is_unreadable(line: &[u8]) -> bool {
    matches!(read_call(line), Call::Unreadable)
}

// Whether the line is of no call once so many bytes from `at` on are others.
fn is_unreadable_with(
    heap: Global,
    line: &[u8],
    at: usize,
    count: usize,
    others: &[u8],
) -> Result<bool, AllocError> {
    let rest = line.iter().skip(at).skip(count);
    let damaged: Vec<u8> = line
        .iter()
        .take(at)
        .chain(others)
        .chain(rest)
        .copied()
        .collect(heap)?;
    Ok(is_unreadable(&damaged))
}

// Every damage to one line, at each of its bytes.
fn every_damage(rt: &(impl Abort + AllocGlobal), line: &[u8]) -> Result<(), AllocError> {
    assert!(rt; !is_unreadable(line), "the line itself");
    for at in 0..line.len() {
        for byte in [0, b'\t', b'\r', b'A', b'F', b'~', 0x80, 0xff] {
            let other = is_unreadable_with(rt.alloc(), line, at, 1, &[byte])?;
            assert!(rt; other, "another byte");
            let more = is_unreadable_with(rt.alloc(), line, at, 0, &[byte])?;
            assert!(rt; more, "a byte more");
        }
        let less = is_unreadable_with(rt.alloc(), line, at, 1, &[])?;
        assert!(rt; less, "a byte less");
        let space = is_unreadable_with(rt.alloc(), line, at, 0, b" ")?;
        assert!(rt; space, "a space more");
        let end = is_unreadable_with(rt.alloc(), line, at, 0, b"\n")?;
        assert!(rt; end, "LF before the end");
    }
    let end = is_unreadable_with(rt.alloc(), line, line.len(), 0, b"\n")?;
    assert!(rt; end, "LF after the end");
    Ok(())
}

// Every damage to a line of each call.
#[test]
fn damage_at_each_byte(rt: HostRuntime) -> Result<(), Fail> {
    let lines: [&[u8]; 13] = [
        b"op=l mode=s sum=0 mxr=0 va=0000000000000008\n",
        b"op=f mode=u sum=1 mxr=1 va=00000000000000a0\n",
        b"op=s mode=s sum=0 mxr=1 va=ffffffffffffffff data=0123456789abcdef\n",
        b"op=z va=0000000000001000 asid=0001\n",
        b"op=z va=all asid=ffff\n",
        b"op=z va=all asid=all\n",
        b"op=g data=8000100000000003\n",
        b"op=h data=8000000000000004\n",
        b"op=e\n",
        b"op=x\n",
        b"op=r pa=0000000000000008\n",
        b"op=w pa=0000000000000008 data=00000000000000c7\n",
        b"op=y\n",
    ];
    for line in lines {
        every_damage(&rt, line)?;
    }
    Ok(())
}

#[test]
fn damage_at_each_field(rt: HostRuntime) {
    let lines: [&[u8]; 24] = [
        b"",
        b"\n",
        b"\r\n",
        b" op=e\n",
        b"op=\n",
        b"op\n",
        b"=e\n",
        b"op=ee\n",
        b"op=q\n",
        b"op=e op=e\n",
        b"op=e data=0000000000000000\n",
        b"mode=s op=l sum=0 mxr=0 va=0000000000000008\n",
        b"op=l mode=s mxr=0 sum=0 va=0000000000000008\n",
        b"op=l mode=m sum=0 mxr=0 va=0000000000000008\n",
        b"op=l mode=s sum=2 mxr=0 va=0000000000000008\n",
        b"op=l mode=s sum=0 mxr= va=0000000000000008\n",
        b"op=l mode=s sum=0 mxr=0 va=all\n",
        b"op=l mode=s sum=0 mxr=0 va=00000000000000008\n",
        b"op=l mode=s sum=0 mxr=0 va=000000000000000A\n",
        b"op=s mode=s sum=0 mxr=0 va=0000000000000008\n",
        b"op=z asid=0001 va=0000000000001000\n",
        b"op=z va=0000000000001000 asid=all \n",
        b"op=z va=0000000000001000\n",
        b"op=w data=00000000000000c7 pa=0000000000000008\n",
    ];
    for line in lines {
        assert!(rt; is_unreadable(line));
    }
}
