//! Look-ups.
ghost use Rattle.std.specs.Prelude.{◌≡◌, ◌^◌, ◌<◌, IfSome};
ghost use Rattle.entry.specs.Entry.{frame_of};
ghost use Rattle.layout.specs.Finds.{found};

use crate::pools::Pool;
use entry::{Entry, Frame, Page};
use layout::AsidPage;
use table::{RootIndex, Table, walk};

// The level of a root table.
const TOP: u8 = 2;

impl Pool {
    /// The leaf that the walk of the ASID's tables finds for the page.
    pub fn find(&self, place: AsidPage) -> Option<Entry>
        ensures value { result ≡ found self.now.words.items place.asid.number place.page.number }
        ensures small { IfSome result (λ entry. frame_of entry.word < 2 ^ 16) }
    {
        let root = self.root(place.asid)?;
        let table = Table {
            root: Frame {
                number: root as u64,
            },
            top: TOP,
            index: RootIndex::Nine,
        };
        let page = Page {
            number: place.page.number,
        };
        let leaf = walk(self, table, page).ok()?;
        Some(leaf.entry)
    }
}
