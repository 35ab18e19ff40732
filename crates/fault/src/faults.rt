//! Faults, nested as they happen: a guest fault may hold a host fault, which may hold the memory's.
ghost use Rattle.std.specs.Prelude.{◌≡◌};
ghost use Rattle.fault.specs.declared.faults.HostFault.TheVariants as host;
ghost use Rattle.fault.specs.declared.faults.GuestFault.TheVariants as guest;

use access::Kind;
use memory::Outside;
use table::WalkFault;

/// Why the host stage did not translate a guest-physical address.
#[derive(Clone, Copy, PartialEq, Eq, Debug)]
pub enum HostFault {
    /// The address has a bit above those that the table translates.
    OutOfRange,
    /// The walk ended with a fault.
    Walk(WalkFault<Outside>),
    /// The leaf of this level does not allow the access.
    Denied { level: u8 },
    /// The word that the address names lies outside the memory.
    Word(Outside),
}

/// A fault of the host stage, with the guest-physical address that was wanted.
#[derive(Clone, Copy, PartialEq, Eq, Debug)]
pub struct Unreached {
    pub address: u64,
    pub fault: HostFault,
}

/// Why an access was not granted.
#[derive(Clone, Copy, PartialEq, Eq, Debug)]
pub enum GuestFault {
    /// The address is not a multiple of 8.
    Misaligned,
    /// Bits 63 to 39 of the address do not equal bit 38.
    NotCanonical,
    /// The guest's walk ended with a fault, of an entry or of the host stage that was to read it.
    Walk(WalkFault<Unreached>),
    /// The guest leaf of this level does not allow the access.
    Denied { level: u8 },
    /// The host stage did not translate the final address.
    Host(Unreached),
}

/// The whole fault: the access that was asked for, and why it was not granted.
#[derive(Clone, Copy, PartialEq, Eq, Debug)]
pub struct Fault {
    pub kind: Kind,
    pub address: u64,
    pub reason: GuestFault,
}

impl From<WalkFault<Outside>> for HostFault {
    ghost from_gives = { λ e r. r ≡ host.Walk e };

    fn from(fault: WalkFault<Outside>) -> HostFault {
        HostFault::Walk(fault)
    }
}

impl From<Outside> for HostFault {
    ghost from_gives = { λ e r. r ≡ host.Word e };

    fn from(fault: Outside) -> HostFault {
        HostFault::Word(fault)
    }
}

impl From<WalkFault<Unreached>> for GuestFault {
    ghost from_gives = { λ e r. r ≡ guest.Walk e };

    fn from(fault: WalkFault<Unreached>) -> GuestFault {
        GuestFault::Walk(fault)
    }
}

impl From<Unreached> for GuestFault {
    ghost from_gives = { λ e r. r ≡ guest.Host e };

    fn from(fault: Unreached) -> GuestFault {
        GuestFault::Host(fault)
    }
}
