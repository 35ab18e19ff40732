//! The calls and the expected answers of the tests.
use access::Mode;
use calls::{Answer, Call, GuestCall, HostCall, Target};
use refusal::Refusal;
use translator::Fence;

/// What a test expects of a call.
#[derive(Clone, Copy, PartialEq, Eq, Debug)]
pub enum Expected {
    Done,
    Word(u64),
    Fault {
        cause: u8,
        guest_level: u8,
        host_level: u8,
    },
    Refused(Refusal),
}

/// An answer, as far as a test looks at it.
impl From<Answer> for Expected {
    fn from(answer: Answer) -> Expected {
        match answer {
            Answer::Done => Expected::Done,
            Answer::Word(word) => Expected::Word(word),
            Answer::Faulted(fault) => {
                let numbers = fault.numbers();
                Expected::Fault {
                    cause: numbers.cause,
                    guest_level: numbers.guest_level,
                    host_level: numbers.host_level,
                }
            }
            Answer::Refused(refusal) => Expected::Refused(refusal),
        }
    }
}

pub fn fault(cause: u8, guest_level: u8, host_level: u8) -> Expected {
    Expected::Fault {
        cause,
        guest_level,
        host_level,
    }
}

fn target(address: u64) -> Target {
    Target::new(Mode::Supervisor, address)
}

// A function for each call, by its name: lists of calls are read as such.

pub fn load(address: u64) -> Call {
    Call::Guest(GuestCall::Load {
        target: target(address),
    })
}

pub fn fetch(address: u64) -> Call {
    Call::Guest(GuestCall::Fetch {
        target: target(address),
    })
}

pub fn store(address: u64, data: u64) -> Call {
    Call::Guest(GuestCall::Store {
        target: target(address),
        data,
    })
}

pub fn fence(address: Option<u64>, asid: Option<u16>) -> Call {
    let fence = Fence { address, asid };
    Call::Guest(GuestCall::Fence { fence })
}

pub fn root(register: u64) -> Call {
    Call::Guest(GuestCall::Root { register })
}

pub const LEAVE: Call = Call::Guest(GuestCall::Leave);

pub const ENTER: Call = Call::Host(HostCall::Enter);

pub const HOST_FENCE: Call = Call::Host(HostCall::Fence);

pub fn host_load(address: u64) -> Call {
    Call::Host(HostCall::Load { address })
}

pub fn host_store(address: u64, data: u64) -> Call {
    Call::Host(HostCall::Store { address, data })
}

pub fn host_root(register: u64) -> Call {
    Call::Host(HostCall::Root { register })
}
