//! Each answer's line.
use access::Kind;
use calls::Answer;
use fault::{Fault, GuestFault, HostFault, Unreached};
use refusal::Refusal;
use report::put_answer;
use table::WalkFault;

// Whether the line of an answer is this text, with the bytes around it as they were.
fn is_line(n: u64, answer: Answer, text: &[u8]) -> bool {
    let mut out = [b'.'; 140];
    let Some(end) = put_answer(&mut out, 7, n, answer) else {
        return false;
    };
    if end > 135 {
        return false;
    }
    &out[7..end] == text && out[6] == b'.' && out[end] == b'.'
}

#[test]
fn answers(rt: HostRuntime) {
    assert!(rt; is_line(1, Answer::Done, b"n=1 ans=ok\n"));
    assert!(rt;
        is_line(
            2,
            Answer::Word(0xc7),
            b"n=2 ans=word data=00000000000000c7\n",
        )
    );
    assert!(rt;
        is_line(
            10,
            Answer::Word(0xfedcba9876543210),
            b"n=10 ans=word data=fedcba9876543210\n",
        )
    );
    assert!(rt;
        is_line(
            9999,
            Answer::Refused(Refusal::HostAddress),
            b"n=9999 ans=refused number=5\n",
        )
    );
    assert!(rt;
        is_line(
            100,
            Answer::Refused(Refusal::Unreadable),
            b"n=100 ans=refused number=8\n",
        )
    );
}

#[test]
fn faults(rt: HostRuntime) {
    let stopped = Fault {
        kind: Kind::Load,
        address: 8,
        reason: GuestFault::Walk(WalkFault::Stopped { level: 2 }),
    };
    assert!(rt;
        is_line(
            4,
            Answer::Faulted(stopped),
            b"n=4 ans=fault cause=13 va=0000000000000008 gpa=0000000000000000 stage=1 gl=2 hl=3\n",
        )
    );
    let denied = Fault {
        kind: Kind::Store,
        address: 0xffffffffffffff00,
        reason: GuestFault::Host(Unreached {
            address: 0x4008,
            fault: HostFault::Denied { level: 1 },
        }),
    };
    assert!(rt;
        is_line(
            65535,
            Answer::Faulted(denied),
            b"n=65535 ans=fault cause=23 va=ffffffffffffff00 gpa=0000000000001002 stage=2 gl=3 hl=1\n",
        )
    );
}

#[test]
fn no_room(rt: HostRuntime) {
    let mut out = [b'.'; 128];
    assert_eq!(rt; put_answer(&mut out, 1, 1, Answer::Done), None);
    assert_eq!(rt; put_answer(&mut out, 129, 1, Answer::Done), None);
    assert_eq!(rt; out[1], b'.');
    assert_eq!(rt; put_answer(&mut out, 0, 1, Answer::Done), Some(11));
}
