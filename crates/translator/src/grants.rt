//! Grants: what a translator remembers of a walk.
ghost use Rattle.std.specs.Prelude.{◌≡◌};
ghost use Rattle.translator.specs.Grants.{has_right, matches, allows, serves};

use access::{Access, Kind};

/// What a translator remembers of the walk of one page.
#[derive(Clone, Copy, PartialEq, Eq, Debug)]
pub struct Grant {
    pub asid: u16,
    /// The address shifted right by 12.
    pub page: u64,
    /// The frame of host memory.
    pub frame: u16,
    pub read: bool,
    pub write: bool,
    pub fetch: bool,
    /// Whether it is a user page.
    pub user: bool,
    /// Whether it stands for every ASID.
    pub global: bool,
}

impl Grant {
    /// Whether it is for the page of the access, under this ASID.
    pub fn matches(self, asid: u16, access: Access) -> bool
        ensures { result ≡ matches asid access self }
    {
        self.page == access.address >> 12 && (self.global || self.asid == asid)
    }

    /// Whether it has the right that a kind of access needs.
    pub fn has_right(self, kind: Kind) -> bool
        ensures { result ≡ has_right kind self }
    {
        match kind {
            Kind::Load => self.read,
            Kind::Store => self.write,
            Kind::Fetch => self.fetch,
        }
    }

    /// Whether it allows the access.
    pub fn allows(self, access: Access) -> bool
        ensures { result ≡ allows access self }
    {
        self.has_right(access.kind) && access.user_allows(self.user)
    }

    /// Whether it can answer the access under this ASID.
    pub fn serves(self, asid: u16, access: Access) -> bool
        ensures { result ≡ serves asid access self }
    {
        self.matches(asid, access) && self.allows(access)
    }
}
