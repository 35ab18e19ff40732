//! Reading the next fields of a line.
ghost use Rattle.std.specs.Prelude.{[], ◌∷◌};
ghost use Rattle.fields.specs.Cursors.{left_of};
ghost use Rattle.operands.specs.Texts.{target_items, fence_items};
ghost use Rattle.operands.specs.Reads.{Takes};

use calls::Target;
use fields::{Fields, Tag};
use translator::Fence;
use values::Value;

/// The value of the next field, where it has this tag and says one.
pub fn take<V: Value>(fields: &mut Fields<'_>, tag: Tag) -> Option<V>
    ensures { Takes (λ v. (tag, V.Value.text v) ∷ []) (left_of fields.old) result (left_of fields.new) }
{
    V::read(fields.value(tag)?)
}

/// The target of an access.
pub(crate) fn target(fields: &mut Fields<'_>) -> Option<Target>
    ensures { Takes (λ t. target_items t []) (left_of fields.old) result (left_of fields.new) }
{
    Some(Target {
        mode: take(fields, Tag::Mode)?,
        sum: take(fields, Tag::Sum)?,
        mxr: take(fields, Tag::Mxr)?,
        address: take(fields, Tag::Va)?,
    })
}

/// A fence of the guest.
pub(crate) fn fence(fields: &mut Fields<'_>) -> Option<Fence>
    ensures { Takes fence_items (left_of fields.old) result (left_of fields.new) }
{
    Some(Fence {
        address: take(fields, Tag::Va)?,
        asid: take(fields, Tag::Asid)?,
    })
}
