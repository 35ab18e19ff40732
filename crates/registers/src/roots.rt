//! The two root registers, and the tables that they name.
ghost use Rattle.std.specs.Prelude.{◌≡◌, ◌≤◌, true, false, cond, Some, None};
ghost use Rattle.registers.specs.Registers.{is_paged, asid_of, root_of, is_guest_root, is_host_root};
ghost use Rattle.registers.specs.Tables.{DecodesTo, IsTable};
ghost use Rattle.table.specs.declared.walks.RootIndex.TheVariants.{Nine, Eleven};
ghost use Rattle.refusal.specs.declared.Refusal.TheVariants.{GuestRoot as bad_guest, HostRoot as bad_host};

use crate::guest_roots::GuestRoot;
use crate::host_roots::HostRoot;
use entry::{Frame, field};
use refusal::Refusal;
use table::{RootIndex, Table};

/// The level of the first table: three levels, counted down to 0.
const TOP: u8 = 2;

/// Both root registers.
#[derive(Clone, Copy)]
pub struct Roots {
    pub guest: GuestRoot,
    pub host: HostRoot,
}

// The field of `register` that names the first table's frame.
fn root_frame(register: u64) -> Frame
    ensures { result.number ≡ root_of register }
{
    Frame {
        number: field(register, 0, 44),
    }
}

// Whether the mode is 8.
fn is_paged(register: u64) -> bool
    ensures { result ≡ is_paged register }
{
    field(register, 60, 4) == 8
}

// The table of a register, or none under Bare.
fn table_of(register: u64, index: RootIndex) -> Option<Table>
    ensures { IsTable register index result }
{
    is_paged(register).then_some(Table {
        root: root_frame(register),
        top: TOP,
        index,
    })
}

/// The root that a register holds, where it keeps its layout.
impl TryFrom<u64> for GuestRoot {
    type Error = Refusal;

    ghost try_from_gives = { λ register result. DecodesTo (is_guest_root register) (λ root. root.register ≡ register) bad_guest result };

    fn try_from(register: u64) -> Result<GuestRoot, Refusal> {
        let paged = is_paged(register) && field(register, 44, 16) <= 15;
        if register == 0 || paged {
            Ok(GuestRoot { register })
        } else {
            Err(Refusal::GuestRoot)
        }
    }
}

// The two roots share the functions above. They stay two types, since their layouts differ and only the guest has an ASID: a
// type over the layout would be no plainer.
impl GuestRoot {
    /// The table to walk, or none under Bare.
    pub fn table(self) -> Option<Table>
        ensures { IsTable self.register Nine result }
    {
        table_of(self.register, RootIndex::Nine)
    }

    /// The ASID, at most 15: 0 under Bare.
    pub fn asid(self) -> u16
        ensures value { result ≡ asid_of self.register }
        ensures few { result ≤ 15 }
    {
        field(self.register, 44, 16) as u16
    }

    /// The ASID of a root that is not Bare.
    pub fn paged_asid(self) -> Option<u16>
        ensures { result ≡ cond (is_paged self.register) (Some (asid_of self.register)) None }
    {
        is_paged(self.register).then_some(self.asid())
    }
}

/// The root that a register holds, where it keeps its layout.
impl TryFrom<u64> for HostRoot {
    type Error = Refusal;

    ghost try_from_gives = { λ register result. DecodesTo (is_host_root register) (λ root. root.register ≡ register) bad_host result };

    fn try_from(register: u64) -> Result<HostRoot, Refusal> {
        let paged = is_paged(register) && field(register, 44, 16) == 0 && register % 4 == 0;
        if register == 0 || paged {
            Ok(HostRoot { register })
        } else {
            Err(Refusal::HostRoot)
        }
    }
}

impl HostRoot {
    /// The table to walk, whose first table fills four frames, or none under Bare.
    pub fn table(self) -> Option<Table>
        ensures { IsTable self.register Eleven result }
    {
        table_of(self.register, RootIndex::Eleven)
    }
}

impl Roots {
    /// Both roots Bare: registers of 0.
    pub fn bare() -> Roots
        ensures { (result.guest.register ≡ 0) × (result.host.register ≡ 0) }
    {
        Roots {
            guest: GuestRoot { register: 0 },
            host: HostRoot { register: 0 },
        }
    }
}
