//! Judging an input of the program.
ghost use Rattle.judging.specs.Judging.{JudgesInput};

use crate::judges::opened;
use crate::openings::Opened;
use crate::plans::Plan;
use crate::sizes::{INPUT_BYTES, INPUT_CALLS, INPUT_FRAMES};
use refusal::Refusal;
use trace::Lines;

/// Judges an input of the program: 1 to 8 frames, at most 500 calls, at most 16,384 bytes. Its frames are judged first.
pub fn judge_input(input: &[u8]) -> Result<Plan, Refusal>
    ensures { JudgesInput input.now result }
{
    let Opened { frames, calls } = opened(input).ok_or(Refusal::Frames)?;
    if frames > INPUT_FRAMES {
        return Err(Refusal::Frames);
    }
    let calls = Lines::new(calls).count();
    if calls > INPUT_CALLS || input.len() > INPUT_BYTES {
        return Err(Refusal::Room);
    }
    Ok(Plan { frames, calls })
}
