//! The laws of single edits: the steps of each lead to the model that its definition says.
ghost use Rattle.edit_steps.specs.Standing.{SpotStands};
ghost use Rattle.edit_steps.specs.Laws.{LinkStands, SetRefStands, ReorderStands, CreateStands, MoveWithinStands, MoveToStands, ClearMeets, InsertMeets, RemoveMeets, ShiftMeets, SetRefIdle, CreateMeets, MoveWithinMeets, MoveToMeets, SetAttrMeets, UnsetAttrMeets, SetRefMeets, LinkMeets, UnlinkMeets, UnsetMeets, ReorderMeets};

/// The steps of an edit of a plain reference lead to the rows that the edit is to leave. The mirrors of opposites are
/// among them, and what they displace is not. Setting a reference takes no step exactly where it changes nothing.
pub fn law_of_reference_edits()
    ensures set_ref { SetRefMeets }
    ensures link { LinkMeets }
    ensures unlink { UnlinkMeets }
    ensures unset { UnsetMeets }
    ensures reorder { ReorderMeets }
    ensures idle { SetRefIdle }
{}

/// The steps that create an element lead to a model in which it is live, last in its place.
pub fn law_of_creation()
    ensures { CreateMeets }
{}

/// The steps that set or unset a single attribute lead to a model in which it has that value, or none.
pub fn law_of_attribute_edits()
    ensures set_attr { SetAttrMeets }
    ensures unset_attr { UnsetAttrMeets }
{}

/// The steps that move an element lead to a model in which it stands at that index of that place.
pub fn law_of_moves()
    ensures within { MoveWithinMeets }
    ensures to_another { MoveToMeets }
{}

/// The steps of an edit of a many-valued attribute lead to a model in which it has the values that the edit is to leave.
pub fn law_of_many_value_edits()
    ensures insert { InsertMeets }
    ensures remove { RemoveMeets }
    ensures shift { ShiftMeets }
    ensures clear { ClearMeets }
{}

/// An entry stands where it was asked for. In a list by rank and then by id, one with the rank of the spot at an index
/// stands at that index. The others stand as they did, renumbered or not. So a target that is linked stands at its
/// index, and its source last in the opposite's list. One that is reordered stands at its index. A new element stands
/// last in its place, and one that moves at its index. Each other list is as it was, without what the edit takes away.
pub fn law_of_standing()
    ensures spot { SpotStands }
    ensures link { LinkStands }
    ensures set_ref { SetRefStands }
    ensures reorder { ReorderStands }
    ensures create { CreateStands }
    ensures within { MoveWithinStands }
    ensures to_another { MoveToStands }
{}
