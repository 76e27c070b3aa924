//! The law of the calls: the steps that they make can be taken, and lead to what the edit is to leave.
ghost use Rattle.edit_steps.specs.Laws.{UnsetMeets};
ghost use Rattle.edit_steps.specs.LinkLaws.{SetRefLeads, LinkLeads, UnlinkLeads, ReorderLeads};

/// The steps of an edit that is not refused can be taken one by one. They lead to the model that the edit is to leave.
pub fn law_of_calls()
    ensures set_ref { SetRefLeads }
    ensures link { LinkLeads }
    ensures unlink { UnlinkLeads }
    ensures unset_ref { UnsetMeets }
    ensures reorder { ReorderLeads }
{}
