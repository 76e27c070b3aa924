//! The laws of replay: each is a function without a body, whose contract is the law.
ghost use Rattle.replay_laws.specs.Remaking.{EventsAreMadeAgain, NothingIsUnknown};
ghost use Rattle.replay_laws.specs.Replay.{ScriptsReplay, StoresReplay};

/// The law of events made again: an event that could be made in a state in order, and that a script can hold, is what its own line
/// and block are answered with, where the store ends below 2^40 after it. The line of an event that could be made names versions
/// and branches that are there.
pub fn law_of_events_made_again()
    ensures again { EventsAreMadeAgain }
    ensures known { NothingIsUnknown }
{}

/// The law of replay: the script of events that could be made and can be printed is cut without a fault. Run on the empty
/// repository, it makes just these events, and none of its lines is refused. So it is with the events of each store.
pub fn law_of_replay()
    ensures scripts { ScriptsReplay }
    ensures stores { StoresReplay }
{}
