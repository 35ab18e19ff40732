//! One field of a line after another.
ghost use Rattle.std.specs.Prelude.{◌≡◌};
ghost use Rattle.fields.specs.Fields.{ReadsField};

use crate::endings::Ending;
use crate::tags::Tag;
use trace::{Mark, cut_at};

/// A field: its key, its value, and the place of the value in the line.
#[derive(Clone, Copy)]
pub struct Field<'a> {
    pub tag: Tag,
    pub value: &'a [u8],
    pub place: usize,
}

/// One step along a line: a field, what ended its value, and where the next field begins.
#[derive(Clone, Copy)]
pub struct Step<'a> {
    pub field: Field<'a>,
    pub stop: Ending,
    pub next: usize,
}

/// The field that begins at `at`.
pub fn field_at(line: &[u8], at: usize) -> Option<Step<'_>>
    ensures { ReadsField line.now at result }
{
    let key = cut_at(line.get(at..)?, Mark::Equals)?;
    let tag = Tag::read(key.before)?;
    let value = cut_at(key.after, Mark::Stop)?;
    let place = at + key.before.len() + 1;
    Some(Step {
        field: Field {
            tag,
            value: value.before,
            place,
        },
        stop: Ending::at(value.mark),
        next: place + value.before.len() + 1,
    })
}
