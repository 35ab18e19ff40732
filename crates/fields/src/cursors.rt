//! A cursor over the fields of a line.
ghost use Rattle.std.specs.Prelude.{◌≡◌, ◌-◌, ◌↔◌, IsTrue, [], ◌∷◌, length};
ghost use Rattle.std.specs.Iterator.{at_most};
ghost use Rattle.fields.specs.Cursors.{NextField, left_of, TakesValue};

use crate::steps::{Field, field_at};
use crate::tags::Tag;

/// A cursor that hands out the fields of a line, one at a time.
#[derive(Clone, Copy)]
pub struct Fields<'a> {
    pub line: &'a [u8],
    /// Where the next field begins. A field says the place of its value in the whole line, so that the rest alone would not do.
    pub at: usize,
    /// What ended the last value: a space or LF, or a space before the first field.
    pub stop: u8,
}

impl<'a> Fields<'a> {
    /// A cursor before the first field of a line.
    pub fn new(line: &'a [u8]) -> Fields<'a>
        ensures { left_of result ≡ 32 ∷ line.now }
    {
        Fields {
            line,
            at: 0,
            stop: b' ',
        }
    }

    /// The value of the next field, which is then read: `None`, and nothing read, where the next field has another tag, or
    /// none follows on this line.
    pub fn value(&mut self, tag: Tag) -> Option<&'a [u8]>
        ensures line { self.new.line.now ≡ self.old.line.now }
        ensures value { TakesValue tag (left_of self.old) result (left_of self.new) }
    {
        // Where the line has ended, nothing of what follows is looked at.
        if self.stop != b' ' {
            return None;
        }
        match field_at(self.line, self.at) {
            Some(step) if step.field.tag == tag => {
                self.at = step.next;
                self.stop = step.stop.byte();
                Some(step.field.value)
            }
            _ => None,
        }
    }

    /// Whether the line is read to its end, which is its LF.
    pub fn is_done(&self) -> bool
        ensures { IsTrue result ↔ (left_of self.now ≡ 10 ∷ []) }
    {
        self.stop == b'\n' && self.at >= self.line.len()
    }
}

// The fields from here on, whatever ended the value before; the cursor stands where it did where none begins.
impl<'a> Iterator for Fields<'a> {
    type Item = Field<'a>;

    ghost next_gives = { NextField };

    ghost remaining = { λ s. at_most (length s.line.now - s.at) };

    fn next(&mut self) -> Option<Field<'a>> {
        let step = field_at(self.line, self.at)?;
        self.at = step.next;
        self.stop = step.stop.byte();
        Some(step.field)
    }
}
