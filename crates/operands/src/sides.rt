//! Calls of one side, by their letter and the fields after it.
ghost use Rattle.std.specs.Prelude.{ℕ, List};
ghost use Rattle.fields.specs.Items.{Item};
ghost use Rattle.fields.specs.Cursors.{left_of};
ghost use Rattle.operands.specs.Texts.{host_letter, host_rest, guest_letter, guest_rest};
ghost use Rattle.operands.specs.Reads.{TakesRest};

use crate::reads::{fence, take, target};
use calls::{GuestCall, HostCall};
use fields::{Fields, Tag};

/// A call of one side: a letter, and fields after it.
pub trait SideCall: Copy {
    // The letter of a call.
    ghost letter: { Self → List ℕ };

    // Its fields after the letter, in their order.
    ghost rest: { Self → List Item };

    /// The call with this letter and the next fields.
    fn read(fields: &mut Fields<'_>, byte: u8) -> Option<Self>
        ensures { TakesRest letter rest byte (left_of fields.old) result (left_of fields.new) };
}

impl SideCall for HostCall {
    ghost letter = { host_letter };

    ghost rest = { host_rest };

    fn read(fields: &mut Fields<'_>, byte: u8) -> Option<HostCall> {
        match byte as char {
            'r' => Some(HostCall::Load {
                address: take(fields, Tag::Pa)?,
            }),
            'w' => Some(HostCall::Store {
                address: take(fields, Tag::Pa)?,
                data: take(fields, Tag::Data)?,
            }),
            'h' => Some(HostCall::Root {
                register: take(fields, Tag::Data)?,
            }),
            'y' => Some(HostCall::Fence),
            'e' => Some(HostCall::Enter),
            _ => None,
        }
    }
}

impl SideCall for GuestCall {
    ghost letter = { guest_letter };

    ghost rest = { guest_rest };

    fn read(fields: &mut Fields<'_>, byte: u8) -> Option<GuestCall> {
        match byte as char {
            'l' => Some(GuestCall::Load {
                target: target(fields)?,
            }),
            's' => Some(GuestCall::Store {
                target: target(fields)?,
                data: take(fields, Tag::Data)?,
            }),
            'f' => Some(GuestCall::Fetch {
                target: target(fields)?,
            }),
            'z' => Some(GuestCall::Fence {
                fence: fence(fields)?,
            }),
            'g' => Some(GuestCall::Root {
                register: take(fields, Tag::Data)?,
            }),
            'x' => Some(GuestCall::Leave),
            _ => None,
        }
    }
}
