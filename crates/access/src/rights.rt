//! What the leaves of the two stages allow.
ghost use Rattle.std.specs.Prelude.{◌≡◌};
ghost use Rattle.access.specs.Rights.{gives, host_allows, user_allows, guest_allows};

use crate::accesses::{Access, Kind, Mode};
use entry::Entry;

impl Kind {
    /// Whether a leaf gives this kind its right.
    pub fn is_given(self, entry: Entry) -> bool
        ensures { result ≡ gives self entry.word }
    {
        entry.is_accessed()
            && match self {
                Kind::Load => entry.is_readable(),
                Kind::Store => entry.is_writable() && entry.is_dirty(),
                Kind::Fetch => entry.is_executable(),
            }
    }

    /// Whether a host leaf allows this kind.
    pub fn host_allows(self, entry: Entry) -> bool
        ensures { result ≡ host_allows self entry.word }
    {
        entry.is_user() && self.is_given(entry)
    }
}

impl Access {
    /// Whether the access may use a page, by its mode and SUM, where `user` tells whether it is a user page.
    pub fn user_allows(self, user: bool) -> bool
        ensures { result ≡ user_allows self user }
    {
        match (self.mode, self.kind) {
            (Mode::User, _) => user,
            (Mode::Supervisor, Kind::Fetch) => !user,
            (Mode::Supervisor, _) => !user || self.sum,
        }
    }

    /// Whether a guest leaf allows the access.
    pub fn guest_allows(self, entry: Entry) -> bool
        ensures { result ≡ guest_allows self entry.word }
    {
        if !self.user_allows(entry.is_user()) {
            return false;
        }
        match self.kind {
            Kind::Load => Kind::Load.is_given(entry) || self.mxr && Kind::Fetch.is_given(entry),
            kind => kind.is_given(entry),
        }
    }
}
