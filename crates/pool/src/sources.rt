//! The pool as a source of table words.
ghost use Rattle.layout.specs.Finds.{pool_reads};

use crate::pools::Pool;
use crate::words::FRAME;
use entry::Frame;
use layout::OutsidePool;
use table::TableSource;

impl TableSource for Pool {
    type Fault = OutsidePool;

    ghost reads = { λ s. pool_reads s.words.items };

    fn read(&self, frame: Frame, index: u16) -> Result<u64, OutsidePool> {
        let at = frame.number as usize * FRAME + usize::from(index);
        self.words.get(at).copied().ok_or(OutsidePool)
    }
}
