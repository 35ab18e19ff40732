//! Reading the line of a call.
ghost use Rattle.std.specs.Prelude.{[], ◌∷◌};
ghost use Rattle.fields.specs.Cursors.{left_of};
ghost use Rattle.values.specs.Reads.{ReadsBy};
ghost use Rattle.operands.specs.Texts.{host_letter, host_rest, guest_letter, guest_rest};
ghost use Rattle.operands.specs.Reads.{Spelled};
ghost use Rattle.reader.specs.Texts.{side_parts};
ghost use Rattle.reader.specs.Reads.{ReadsCall, Reads};

use calls::{Call, GuestCall, HostCall};
use fields::{Fields, Tag};
use operands::{SideCall, take};

// The call of one side with this letter, whose other fields are the rest of the line.
fn side_call<C: SideCall>(mut fields: Fields<'_>, letter: u8) -> Option<C>
    requires { Spelled C.letter C.rest }
    ensures { ReadsBy (side_parts C.letter C.rest) (letter ∷ [], left_of fields.entry) result }
{
    let call = C::read(&mut fields, letter)?;
    fields.is_done().then_some(call)
}

// The call with this letter, whose other fields are the rest of the line. A letter is of one side, so that no field is read twice.
fn call_of(fields: Fields<'_>, letter: u8) -> Call
    ensures { ReadsCall (side_parts host_letter host_rest) (side_parts guest_letter guest_rest) (letter ∷ [], left_of fields.entry) result }
{
    if let Some(call) = side_call::<HostCall>(fields, letter) {
        Call::Host(call)
    } else if let Some(call) = side_call::<GuestCall>(fields, letter) {
        Call::Guest(call)
    } else {
        Call::Unreadable
    }
}

/// The call whose text the line is.
pub fn read_call(line: &[u8]) -> Call
    ensures { Reads line.now result }
{
    let mut fields = Fields::new(line);
    match take(&mut fields, Tag::Op) {
        Some(letter) => call_of(fields, letter),
        None => Call::Unreadable,
    }
}
