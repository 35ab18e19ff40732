//! The text of calls and answers.
use access::Mode;
use calls::{Answer, Call, GuestCall, HostCall, Target};
use fault::Fault;
use std::fmt;
use translator::Fence;

/// A value of another crate, as the examples print it.
#[derive(Clone, Copy)]
pub struct Shown<T>(pub T);

// What a fence names, or all where it names nothing.
#[derive(Clone, Copy)]
struct OrAll<T>(Option<T>);

// A word in its 16 hexadecimal digits.
#[derive(Clone, Copy)]
struct Digits(u64);

impl fmt::Display for Digits {
    fn fmt<W: fmt::Write>(&self, f: &mut fmt::Formatter<W>) -> fmt::Result {
        write!(f, "{:016x}", self.0)
    }
}

impl<T: fmt::Display> fmt::Display for OrAll<T> {
    fn fmt<W: fmt::Write>(&self, f: &mut fmt::Formatter<W>) -> fmt::Result {
        match &self.0 {
            Some(named) => write!(f, "{named}"),
            None => write!(f, "all"),
        }
    }
}

impl fmt::Display for Shown<Mode> {
    fn fmt<W: fmt::Write>(&self, f: &mut fmt::Formatter<W>) -> fmt::Result {
        f.write_str(match self.0 {
            Mode::Supervisor => "s",
            Mode::User => "u",
        })
    }
}

/// Where an access goes, and in which mode.
impl fmt::Display for Shown<Target> {
    fn fmt<W: fmt::Write>(&self, f: &mut fmt::Formatter<W>) -> fmt::Result {
        let Target {
            mode,
            sum,
            mxr,
            address,
        } = self.0;
        let (mode, sum, mxr) = (Shown(mode), u8::from(sum), u8::from(mxr));
        write!(f, "mode={mode} sum={sum} mxr={mxr} va={address:016x}")
    }
}

/// The six numbers of a fault.
impl fmt::Display for Shown<Fault> {
    fn fmt<W: fmt::Write>(&self, f: &mut fmt::Formatter<W>) -> fmt::Result {
        let numbers = self.0.numbers();
        write!(
            f,
            "cause={} va={:016x} gpa={:016x} stage={} gl={} hl={}",
            numbers.cause,
            numbers.address,
            numbers.guest_physical,
            numbers.stage,
            numbers.guest_level,
            numbers.host_level
        )
    }
}

impl fmt::Display for Shown<Fence> {
    fn fmt<W: fmt::Write>(&self, f: &mut fmt::Formatter<W>) -> fmt::Result {
        let Fence { address, asid } = self.0;
        let (address, asid) = (OrAll(address.map(Digits)), OrAll(asid));
        write!(f, "guest fence va={address} asid={asid}")
    }
}

impl fmt::Display for Shown<HostCall> {
    fn fmt<W: fmt::Write>(&self, f: &mut fmt::Formatter<W>) -> fmt::Result {
        match self.0 {
            HostCall::Load { address } => write!(f, "host load pa={address:016x}"),
            HostCall::Store { address, data } => {
                write!(f, "host store pa={address:016x} data={data:016x}")
            }
            HostCall::Root { register } => write!(f, "host root {register:016x}"),
            HostCall::Fence => write!(f, "host fence"),
            HostCall::Enter => write!(f, "enter"),
        }
    }
}

impl fmt::Display for Shown<GuestCall> {
    fn fmt<W: fmt::Write>(&self, f: &mut fmt::Formatter<W>) -> fmt::Result {
        match self.0 {
            GuestCall::Load { target } => write!(f, "load {}", Shown(target)),
            GuestCall::Store { target, data } => {
                write!(f, "store {} data={data:016x}", Shown(target))
            }
            GuestCall::Fetch { target } => write!(f, "fetch {}", Shown(target)),
            GuestCall::Fence { fence } => write!(f, "{}", Shown(fence)),
            GuestCall::Root { register } => write!(f, "guest root {register:016x}"),
            GuestCall::Leave => write!(f, "leave"),
        }
    }
}

impl fmt::Display for Shown<Call> {
    fn fmt<W: fmt::Write>(&self, f: &mut fmt::Formatter<W>) -> fmt::Result {
        match self.0 {
            Call::Host(call) => write!(f, "{}", Shown(call)),
            Call::Guest(call) => write!(f, "{}", Shown(call)),
            Call::Unreadable => write!(f, "unreadable"),
        }
    }
}

/// What a call answers.
impl fmt::Display for Shown<Answer> {
    fn fmt<W: fmt::Write>(&self, f: &mut fmt::Formatter<W>) -> fmt::Result {
        match self.0 {
            Answer::Done => write!(f, "done"),
            Answer::Word(word) => write!(f, "word {word:016x}"),
            Answer::Faulted(fault) => write!(f, "fault {}", Shown(fault)),
            Answer::Refused(refusal) => write!(f, "refused {}", refusal.number()),
        }
    }
}
