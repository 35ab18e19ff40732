//! The tests: each goes over a table.
use crate::cases::{ADDRESSES, ENTRIES, LEVELS, REGISTERS, RIGHTS};
use crate::scenarios::{Answer, Holder, Scenario};
use access::Access;
use memory::{Memory, Words};
use refusal::Refusal;
use registers::{GuestRoot, HostRoot, Roots};
use stages::World;
use std::process::Abort;
use std::test::Fail;

impl Scenario {
    // Makes each access, and compares what it comes to. The cases of a scenario are counted from 0.
    fn check(&self, rt: &(impl Abort + AllocGlobal)) -> Result<(), Fail> {
        let name = self.name;
        let roots = Roots {
            guest: GuestRoot::try_from(self.guest)?,
            host: HostRoot::try_from(self.host)?,
        };
        let mut words = vec![in rt.alloc(); 0u64; 512 * usize::from(self.start.frames())]?;
        let mut memory = Words { words: &mut words };
        for (address, word) in self.start.words().iter().chain(self.words) {
            memory.write(address / 8, *word)?;
        }
        for (number, (way, address, expected)) in self.cases.iter().enumerate() {
            let access = Access {
                address: *address,
                ..*way
            };
            let found = World::new(&memory, roots).translate(access);
            let asked = found
                .err()
                .map_or(access.address, |fault| fault.numbers().address);
            assert_eq!(rt; asked, access.address, "{name}: case {number}");
            let came = found.map_or_else(Answer::from, Answer::from);
            assert_eq!(rt; came, *expected, "{name}: case {number}");
        }
        Ok(())
    }
}

fn check_all(rt: &(impl Abort + AllocGlobal), table: &[Scenario]) -> Result<(), Fail> {
    for scenario in table {
        scenario.check(rt)?;
    }
    Ok(())
}

#[test]
fn addresses(rt: HostRuntime) -> Result<(), Fail> {
    check_all(&rt, &ADDRESSES)
}

#[test]
fn rights(rt: HostRuntime) -> Result<(), Fail> {
    check_all(&rt, &RIGHTS)
}

#[test]
fn entries(rt: HostRuntime) -> Result<(), Fail> {
    check_all(&rt, &ENTRIES)
}

#[test]
fn levels(rt: HostRuntime) -> Result<(), Fail> {
    check_all(&rt, &LEVELS)
}

// A register is the guest's root or is refused as that, and is the host's root or is refused as that.
#[test]
fn registers(rt: HostRuntime) {
    for (register, holder) in REGISTERS {
        let guest = GuestRoot::try_from(register).map(|root| root.register);
        let host = HostRoot::try_from(register).map(|root| root.register);
        let expected = match holder {
            Holder::Either => (Ok(register), Ok(register)),
            Holder::GuestOnly => (Ok(register), Err(Refusal::HostRoot)),
            Holder::Neither => (Err(Refusal::GuestRoot), Err(Refusal::HostRoot)),
        };
        assert_eq!(rt; (guest, host), expected, "root register {register:#x}");
    }
    assert_eq!(rt; Refusal::GuestRoot.number(), 3);
    assert_eq!(rt; Refusal::HostRoot.number(), 4);
}
