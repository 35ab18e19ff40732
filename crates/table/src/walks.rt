//! One walk, over any source of table words.
ghost use Rattle.std.specs.Prelude.{◌≡◌, ℕ, suc, ◌+◌, ◌*◌, ◌^◌, ◌<◌, false, IfOk, Result};
ghost use Rattle.entry.specs.Entry.{is_misaligned};
ghost use Rattle.table.specs.Shape.{bits_of};
ghost use Rattle.table.specs.Walk.{index_of, leaf_of, walk_from, walk_of};
ghost use Rattle.table.specs.Chain.{FollowsChain};

use entry::{Entry, Frame, Page, field, low};

/// Where a walk ends well: the frame of the page, the level of the leaf, its entry, and whether an entry on the way, the leaf
/// included, was global.
// That the frame is below 2^52 stands in clauses and is no ghost field: the definitions make leaves of numbers alone, and each
// would have to bring a proof.
#[derive(Clone, Copy, PartialEq, Eq, Debug)]
pub struct Leaf {
    pub frame: u64,
    pub level: u8,
    pub entry: Entry,
    pub global: bool,
}

/// Where a walk ends with a fault, and at which level: the source did not give a word, or the entry stopped it.
#[derive(Clone, Copy, PartialEq, Eq, Debug)]
pub enum WalkFault<F> {
    Source { level: u8, fault: F },
    Stopped { level: u8 },
}

/// How many bits the index in the first table has: nine, or two more, so that the table fills four frames.
#[derive(Clone, Copy)]
pub enum RootIndex {
    Nine = 9,
    Eleven = 11,
}

/// A table to walk, by the frame and the level of its first table; the number of levels is one more.
#[derive(Clone, Copy)]
pub struct Table {
    pub root: Frame,
    pub top: u8,
    pub index: RootIndex,
}

impl RootIndex {
    /// The number of bits.
    pub fn bits(self) -> u32
        ensures { result ≡ bits_of self }
    {
        self as u32
    }
}

/// Where a walk reads its table words.
pub trait TableSource {
    type Fault;

    // What a read of the word at each index answers.
    ghost reads: { Self → ℕ → Result ℕ Self.Fault };

    /// The word at `index` of the table at `frame`; an index of 512 and more reaches into the frames after it.
    fn read(&self, frame: Frame, index: u16) -> Result<u64, Self::Fault>
        ensures { result ≡ reads self.now (frame.number * 512 + index) };
}

// The index of `page` in a table of this level.
fn index(table: Table, page: Page, level: u8) -> u16
    ensures { result ≡ index_of table.top (bits_of table.index) page.number level }
{
    let count = if level == table.top {
        table.index.bits()
    } else {
        9
    };
    field(page.number, 9 * level as u32, count) as u16
}

impl Leaf {
    // The leaf that `entry` is for `page` at this level.
    fn of(page: Page, level: u8, entry: Entry, global: bool) -> Leaf
        requires { is_misaligned level entry.word ≡ false }
        ensures answer { result ≡ leaf_of page.number level entry.word global }
        ensures fits { result.frame < 2 ^ 52 }
    {
        Leaf {
            frame: entry.frame().number + low(page.number, 9 * level as u32),
            level,
            entry,
            global,
        }
    }
}

// The walk, a level at a time from the first table down. What it says of chains follows once, in `walk`, for each of its ends.
fn descend<S: TableSource>(
    source: &S,
    table: Table,
    page: Page,
) -> Result<Leaf, WalkFault<S::Fault>>
    ensures answer { result ≡ walk_of (S.reads source.now) table.top (bits_of table.index) table.root.number page.number }
    ensures fits { IfOk result (λ leaf. leaf.frame < 2 ^ 52) }
{
    let mut frame = table.root;
    let mut global = false;
    for level in (0..=table.top).rev() {
        let word = source
            .read(frame, index(table, page, level))
            .map_err(|fault| WalkFault::Source { level, fault })?;
        let entry = Entry { word };
        global |= entry.is_global();
        if entry.stops(level) {
            return Err(WalkFault::Stopped { level });
        }
        if !entry.is_pointer() {
            return Ok(Leaf::of(page, level, entry, global));
        }
        frame = entry.frame();
    }
    // A pointer of level 0 has stopped the walk.
    unreachable()
}

/// The walk of `table` for `page`: a leaf exactly if a chain of entries leads there from the root, a fault at a level exactly if
/// the chain ends there.
pub fn walk<S: TableSource>(
    source: &S,
    table: Table,
    page: Page,
) -> Result<Leaf, WalkFault<S::Fault>>
    ensures answer { result ≡ walk_of (S.reads source.now) table.top (bits_of table.index) table.root.number page.number }
    ensures chain { FollowsChain (S.reads source.now) table.top (bits_of table.index) table.root.number page.number result }
    ensures fits { IfOk result (λ leaf. leaf.frame < 2 ^ 52) }
{
    descend(source, table, page)
}
