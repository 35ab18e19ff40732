//! Where a page comes to at one stage.
ghost use Rattle.std.specs.Prelude.{◌≡◌};
ghost use Rattle.stages.specs.Host.{bare, by_leaf};

use entry::Page;
use table::Leaf;

/// The frame that a page comes to at one stage, and the leaf that gave it: none under Bare.
// That a frame is below 2^52 stands in clauses and is no ghost field: the definitions make landings of numbers alone, and each
// would have to bring a proof.
#[derive(Clone, Copy)]
pub struct Landing {
    pub frame: u64,
    pub leaf: Option<Leaf>,
}

impl Landing {
    /// Under Bare: the frame of the page's own number.
    pub(crate) fn bare(page: Page) -> Landing
        ensures { result ≡ bare page.number }
    {
        Landing {
            frame: page.number,
            leaf: None,
        }
    }

    /// By a leaf.
    pub(crate) fn by_leaf(leaf: Leaf) -> Landing
        ensures { result ≡ by_leaf leaf }
    {
        Landing {
            frame: leaf.frame,
            leaf: Some(leaf),
        }
    }
}
