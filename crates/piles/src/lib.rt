//! The piles of translators that machines are made over.
#![tactic(auto)]

ghost use Rattle.std.specs.Prelude.{IfOk};
ghost use Rattle.piles.specs.Piles.{IsNested, NewShadow, NewTlb};

use shadow::Shadow;
use std::alloc::{AllocError, Global};
use tlb::Tlb;
use translator::Nested;

/// A TLB over the walk.
pub fn new_tlb(heap: Global) -> Result<Tlb<Nested>, AllocError>
    ensures { IfOk result (NewTlb IsNested) }
{
    Tlb::new(heap, Nested)
}

/// A shadow over a pool of zero words.
pub fn new_shadow(heap: Global, pool_words: usize) -> Result<Shadow, AllocError>
    ensures { IfOk result (NewShadow pool_words) }
{
    let pool = vec![in heap; 0u64; pool_words]?;
    Ok(Shadow::new(pool))
}

/// Two TLBs over such a shadow.
pub fn new_tlbs(heap: Global, pool_words: usize) -> Result<Tlb<Tlb<Shadow>>, AllocError>
    ensures { IfOk result (NewTlb (NewTlb (NewShadow pool_words))) }
{
    let lower = Tlb::new(heap, new_shadow(heap, pool_words)?)?;
    Tlb::new(heap, lower)
}
