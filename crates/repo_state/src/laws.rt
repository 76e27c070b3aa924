//! The law of counts: a function without a body, whose contract is the law.
ghost use Rattle.repo_state.specs.Counts.{WorkspacesAreFew};

/// The law of counts: after any events that could be made there are no more workspaces than events, whose number has
/// 32 bits.
pub fn law_of_counts()
    ensures few { WorkspacesAreFew }
{}
