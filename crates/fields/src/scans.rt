//! Finding the fields of a line.
ghost use Rattle.std.specs.Prelude.{length};
ghost use Rattle.fields.specs.Scans.{Scans};

use crate::endings::Ending;
use crate::steps::{Field, field_at};

/// Finds the fields from `at` on, up to the LF that ends the line, and says how many there are. Past those, and at `None`,
/// the fields hold nothing of meaning.
pub fn scan<'a>(line: &'a [u8], at: usize, fields: &mut [Field<'a>]) -> Option<usize>
    ensures { Scans line.now at (length fields.old) fields.new result }
{
    let mut next = at;
    for (n, field) in fields.iter_mut().enumerate() {
        let step = field_at(line, next)?;
        *field = step.field;
        match step.stop {
            Ending::Space => next = step.next,
            Ending::LineFeed if step.next == line.len() => return Some(n + 1),
            Ending::LineFeed => return None,
        }
    }
    None
}
