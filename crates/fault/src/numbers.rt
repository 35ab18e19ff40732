//! A fault as the six numbers of a report.
ghost use Rattle.std.specs.Prelude.{◌≡◌, None};
ghost use Rattle.fault.specs.Numbers.{place, host_place, place_of, level_number, stage_number, cause_of, numbers_of};

use crate::faults::{Fault, GuestFault, HostFault, Unreached};
use access::Kind;
use table::WalkFault;

/// The stage at which an access faults, by its number.
#[derive(Clone, Copy, PartialEq, Eq, Debug)]
pub enum Stage {
    Alignment = 0,
    Guest = 1,
    Host = 2,
    Memory = 3,
}

/// Where an access faults.
#[derive(Clone, Copy, PartialEq, Eq, Debug)]
pub struct Place {
    pub stage: Stage,
    /// The guest-physical address that the host stage did not translate.
    pub guest_physical: Option<u64>,
    /// The level of the guest's entry: none where none was wanted, or the guest's stage was passed.
    pub guest_level: Option<u8>,
    /// The level of the host's entry: none where none was wanted, or the host's stage was passed.
    pub host_level: Option<u8>,
}

/// The six numbers of a fault, as a report has them.
#[derive(Clone, Copy, PartialEq, Eq, Debug)]
pub struct Numbers {
    pub cause: u8,
    pub address: u64,
    /// At stage 2 the guest-physical address shifted right by 2, else 0.
    pub guest_physical: u64,
    pub stage: u8,
    /// 3 for none.
    pub guest_level: u8,
    /// 3 for none.
    pub host_level: u8,
}

// The number of a level in a report, which has 3 for none.
fn level_number(level: Option<u8>) -> u8
    ensures { result ≡ level_number level }
{
    level.unwrap_or(3)
}

impl Stage {
    /// The number of the stage.
    pub fn number(self) -> u8
        ensures { result ≡ stage_number self }
    {
        self as u8
    }

    /// The cause of a fault at this stage, by the kind of the access that was asked for.
    // The causes are a table by two things, so that no enum has them as its own numbers.
    pub fn cause(self, kind: Kind) -> u8
        ensures { result ≡ cause_of self kind }
    {
        match (self, kind) {
            (Stage::Alignment, Kind::Load) => 4,
            (Stage::Alignment, Kind::Store) => 6,
            (Stage::Alignment, Kind::Fetch) => 0,
            (Stage::Guest, Kind::Load) => 13,
            (Stage::Guest, Kind::Store) => 15,
            (Stage::Guest, Kind::Fetch) => 12,
            (Stage::Host, Kind::Load) => 21,
            (Stage::Host, Kind::Store) => 23,
            (Stage::Host, Kind::Fetch) => 20,
            (Stage::Memory, Kind::Load) => 5,
            (Stage::Memory, Kind::Store) => 7,
            (Stage::Memory, Kind::Fetch) => 1,
        }
    }
}

// Where the host stage faults, `guest_level` being the level whose entry was wanted.
fn host_place(guest_level: Option<u8>, unreached: Unreached) -> Place
    ensures { result ≡ host_place guest_level unreached.address unreached.fault }
{
    let (stage, host_level) = match unreached.fault {
        HostFault::OutOfRange => (Stage::Host, None),
        HostFault::Walk(WalkFault::Stopped { level }) => (Stage::Host, Some(level)),
        HostFault::Walk(WalkFault::Source { level, .. }) => (Stage::Memory, Some(level)),
        HostFault::Denied { level } => (Stage::Host, Some(level)),
        HostFault::Word(_) => (Stage::Memory, None),
    };
    Place {
        stage,
        guest_physical: (stage == Stage::Host).then_some(unreached.address),
        guest_level,
        host_level,
    }
}

// A place of the guest's own walk.
fn guest_place(stage: Stage, guest_level: Option<u8>) -> Place
    ensures { result ≡ place stage None guest_level None }
{
    Place {
        stage,
        guest_physical: None,
        guest_level,
        host_level: None,
    }
}

impl GuestFault {
    /// Where the access faults.
    pub fn place(self) -> Place
        ensures { result ≡ place_of self }
    {
        match self {
            GuestFault::Misaligned => guest_place(Stage::Alignment, None),
            GuestFault::NotCanonical => guest_place(Stage::Guest, None),
            GuestFault::Walk(WalkFault::Stopped { level }) => guest_place(
                Stage::Guest,
                Some(level),
            ),
            GuestFault::Walk(WalkFault::Source { level, fault }) => host_place(Some(level), fault),
            GuestFault::Denied { level } => guest_place(Stage::Guest, Some(level)),
            GuestFault::Host(fault) => host_place(None, fault),
        }
    }
}

impl Fault {
    /// The six numbers.
    pub fn numbers(self) -> Numbers
        ensures { result ≡ numbers_of self }
    {
        let place = self.reason.place();
        Numbers {
            cause: place.stage.cause(self.kind),
            address: self.address,
            guest_physical: place.guest_physical.map_or(0, |address| address / 4),
            stage: place.stage.number(),
            guest_level: level_number(place.guest_level),
            host_level: level_number(place.host_level),
        }
    }
}
