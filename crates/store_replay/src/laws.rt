//! The law of moved stores: a function without a body, whose contract is the law.
ghost use Rattle.store_replay.specs.Moving.{StoresAreMadeAgain};

/// The law of moved stores: where a script can hold each event that a file stands for, a run that serves this script on an empty store
/// makes just these events, and refuses no line.
pub fn law_of_moved_stores()
    ensures { StoresAreMadeAgain }
{}
