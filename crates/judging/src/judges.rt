//! Judging a trace before anything is played. Its frames are judged before its room.
ghost use Rattle.judging.specs.Judging.{OpensTo, Judges};

use crate::openings::Opened;
use crate::sizes::{FRAME_BYTES, MOST_CALLS, SPARE_ROOM};
use refusal::Refusal;
use report::LINE_ROOM;
use trace::{Lines, next_line, read_header};

/// Opens a trace whose header says 1 to 4,096 frames.
pub(crate) fn opened(trace: &[u8]) -> Option<Opened<'_>>
    ensures { OpensTo trace.now result }
{
    let (line, calls) = next_line(trace)?;
    let frames = read_header(line)?;
    Some(Opened { frames, calls })
}

/// Judges a trace by the lengths of the image and of the report: the text of its calls.
pub fn judge<'a>(image: usize, trace: &'a [u8], report: usize) -> Result<&'a [u8], Refusal>
    ensures { Judges image trace.now report result }
{
    let Opened { frames, calls } = opened(trace).ok_or(Refusal::Frames)?;
    if image != FRAME_BYTES * frames as usize {
        return Err(Refusal::Frames);
    }
    let count = Lines::new(calls).count();
    if count > MOST_CALLS || report < SPARE_ROOM + LINE_ROOM * count {
        return Err(Refusal::Room);
    }
    Ok(calls)
}
