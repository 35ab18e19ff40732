//! Grants as leaf entries.
ghost use Rattle.std.specs.Prelude.{◌≡◌, ◌^◌, ◌<◌};
ghost use Rattle.entry.specs.Entry.{frame_of};
ghost use Rattle.leaves.specs.Leaves.{has_some_right, leaf_word, grant_of};

use entry::Entry;
use layout::AsidPage;
use translator::Grant;

/// Whether the grant has a right at all.
pub fn has_some_right(grant: Grant) -> bool
    ensures { result ≡ has_some_right grant }
{
    grant.read || grant.write || grant.fetch
}

/// The leaf entry of a grant: V, A and D, its rights, its U and its frame.
pub fn leaf_entry(grant: Grant) -> Entry
    ensures { result.word ≡ leaf_word grant }
{
    let frame = 1024 * u64::from(grant.frame);
    let user = 16 * u64::from(grant.user);
    let fetch = 8 * u64::from(grant.fetch);
    let write = 4 * u64::from(grant.write);
    let read = 2 * u64::from(grant.read);
    Entry {
        word: 193 + (read + (write + (fetch + (user + frame)))),
    }
}

// The grant that a leaf entry gives for a page under an ASID.
pub(crate) fn grant_of(place: AsidPage, entry: Entry) -> Grant
    requires { frame_of entry.word < 2 ^ 16 }
    ensures { result ≡ grant_of place.asid.number place.page.number entry }
{
    Grant {
        asid: place.asid.number,
        page: place.page.number,
        frame: entry.frame().number as u16,
        read: entry.is_readable(),
        write: entry.is_writable(),
        fetch: entry.is_executable(),
        user: entry.is_user(),
        global: false,
    }
}
