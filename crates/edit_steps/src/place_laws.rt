//! The laws of containment: what creations, moves and deletions lead to, and what subtrees and chains of containers
//! are.
ghost use Rattle.edit_steps.specs.PlaceLaws.{ContainersAreChain, CreateLeads, CreatedStands, DeleteKeeps, DeleteLeads, MoveLeads, MovedStands, SubtreeIsBelow, SubtreeIsInOrder, SubtreeIsLive};

/// The steps of a creation that is not refused lead to a model in which the element is live, last in its place.
pub fn law_of_creation_steps()
    ensures leads { CreateLeads }
    ensures stands { CreatedStands }
{}

/// The steps of a move that is not refused lead to a model in which the element stands at that index of that place.
pub fn law_of_move_steps()
    ensures leads { MoveLeads }
    ensures stands { MovedStands }
{}

/// The steps of a deletion lead to the model without the subtree of the element. An element is there as it was exactly
/// where it isn't the deleted one and doesn't have it among its containers. A reference is there exactly where both its
/// ends stay.
pub fn law_of_deletion_steps()
    ensures leads { DeleteLeads }
    ensures keeps { DeleteKeeps }
{}

/// The subtree of an element is the element and then the subtrees of its children in order. These are the element and
/// all that have it among their containers.
pub fn law_of_subtrees()
    ensures in_order { SubtreeIsInOrder }
    ensures below { SubtreeIsBelow }
    ensures live { SubtreeIsLive }
{}

/// A place has at most one chain of containers. Where it has one, that is the list which the definition of its containers
/// gives.
pub fn law_of_containers()
    ensures { ContainersAreChain }
{}
