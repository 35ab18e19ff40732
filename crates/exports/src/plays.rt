//! Playing a trace over an image, on each of the machines.
ghost use Rattle.std.specs.Prelude.{Ok};
ghost use Rattle.piles.specs.Piles.{nested_members, shadow_members, tlbs_members, NewShadow, NewTlb};
ghost use Rattle.exports.specs.Plays.{PlaysOn, PlaysOnNew};

use crate::results::Played;
use piles::{new_shadow, new_tlbs};
use player::play;
use std::alloc::{AllocError, Global};
use translator::{Nested, Translator};

// Plays over the translator that was made, and hands back the length of the report or the number of a refusal.
#[tactic(auto, unfolding(crate::specs::Plays::PlaysOn))]
fn play_on<T: Translator + Drop>(
    made: Result<T, AllocError>,
    image: &mut [u8],
    trace: &[u8],
    report: &mut [u8],
) -> Played
    ensures { PlaysOn T.Translator made image.old trace.now report.old result image.new report.new }
{
    let Ok(mut translator) = made else {
        return Played::NO_MEMORY;
    };
    Played::from(play(image, &mut translator, trace, report))
}

/// Plays on a machine that walks at every access.
#[unsafe(no_mangle)]
pub extern "C" fn cardreader_play_nested(
    image: &mut [u8],
    trace: &[u8],
    report: &mut [u8],
) -> Played
    ensures { PlaysOn nested_members (Ok (record {})) image.old trace.now report.old result image.new report.new }
{
    play_on(Ok(Nested), image, trace, report)
}

/// Plays on a machine that keeps shadow tables in a pool of zero words.
#[unsafe(no_mangle)]
pub extern "C" fn cardreader_play_shadow(
    heap: Global,
    pool_words: usize,
    image: &mut [u8],
    trace: &[u8],
    report: &mut [u8],
) -> Played
    ensures { PlaysOnNew shadow_members (NewShadow pool_words) image.old trace.now report.old result image.new report.new }
{
    play_on(new_shadow(heap, pool_words), image, trace, report)
}

/// Plays on a machine with two TLBs over such tables.
#[unsafe(no_mangle)]
pub extern "C" fn cardreader_play_tlb_tlb_shadow(
    heap: Global,
    pool_words: usize,
    image: &mut [u8],
    trace: &[u8],
    report: &mut [u8],
) -> Played
    ensures { PlaysOnNew tlbs_members (NewTlb (NewTlb (NewShadow pool_words))) image.old trace.now report.old result image.new report.new }
{
    play_on(new_tlbs(heap, pool_words), image, trace, report)
}
