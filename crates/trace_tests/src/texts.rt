//! Each kind of call, read.
use access::Mode;
use calls::{Call, GuestCall, HostCall, Target};
use reader::read_call;
use std::test::Fail;
use trace::next_line;
use translator::Fence;

// The target of a guest's call.
fn target(mode: Mode, sum: bool, mxr: bool, address: u64) -> Target {
    Target {
        mode,
        sum,
        mxr,
        address,
    }
}

#[test]
fn host_calls(rt: HostRuntime) {
    let cases: [(&[u8], HostCall); 5] = [
        (
            b"op=r pa=0000000000000ff8\n",
            HostCall::Load { address: 0xff8 },
        ),
        (
            b"op=w pa=0000000000001000 data=00000000000000c7\n",
            HostCall::Store {
                address: 0x1000,
                data: 0xc7,
            },
        ),
        (
            b"op=h data=8000000000000004\n",
            HostCall::Root {
                register: 0x8000000000000004,
            },
        ),
        (b"op=y\n", HostCall::Fence),
        (b"op=e\n", HostCall::Enter),
    ];
    for (line, call) in cases {
        assert_eq!(rt; read_call(line), Call::Host(call));
    }
}

#[test]
fn guest_calls(rt: HostRuntime) {
    let cases: [(&[u8], GuestCall); 5] = [
        (
            b"op=l mode=s sum=0 mxr=1 va=0000000000000008\n",
            GuestCall::Load {
                target: target(Mode::Supervisor, false, true, 8),
            },
        ),
        (
            b"op=s mode=u sum=1 mxr=0 va=ffffffffffffffff data=0123456789abcdef\n",
            GuestCall::Store {
                target: target(Mode::User, true, false, 0xffffffffffffffff),
                data: 0x0123456789abcdef,
            },
        ),
        (
            b"op=f mode=s sum=0 mxr=0 va=0000000000000000\n",
            GuestCall::Fetch {
                target: target(Mode::Supervisor, false, false, 0),
            },
        ),
        (
            b"op=g data=0000000000000000\n",
            GuestCall::Root { register: 0 },
        ),
        (b"op=x\n", GuestCall::Leave),
    ];
    for (line, call) in cases {
        assert_eq!(rt; read_call(line), Call::Guest(call));
    }
}

#[test]
fn guest_fences(rt: HostRuntime) {
    let cases: [(&[u8], Option<u64>, Option<u16>); 3] = [
        (
            b"op=z va=0000000000001fff asid=ffff\n",
            Some(0x1fff),
            Some(0xffff),
        ),
        (b"op=z va=all asid=000f\n", None, Some(15)),
        (b"op=z va=all asid=all\n", None, None),
    ];
    for (line, address, asid) in cases {
        let fence = Fence { address, asid };
        assert_eq!(rt; read_call(line), Call::Guest(GuestCall::Fence { fence }));
    }
}

#[test]
fn lines_with_and_without_lf(rt: HostRuntime) -> Result<(), Fail> {
    let Some((first, rest)) = next_line(b"a\n\nb") else {
        return Err(Fail::new("no first line"));
    };
    assert!(rt; first == b"a\n".as_slice());
    let Some((second, rest)) = next_line(rest) else {
        return Err(Fail::new("no empty line"));
    };
    assert!(rt; second == b"\n".as_slice());
    let Some((third, rest)) = next_line(rest) else {
        return Err(Fail::new("no last line"));
    };
    assert!(rt; third == b"b".as_slice());
    assert!(rt; next_line(rest).is_none());
    Ok(())
}
