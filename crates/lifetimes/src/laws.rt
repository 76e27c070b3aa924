//! The laws of lifetimes: each is a function without a body, whose contract is the law.
ghost use Rattle.lifetimes.specs.Guarded.{ReadersLives, WritersLives};
ghost use Rattle.lifetimes.specs.Lives.{FilesAtRestAreSafe, LivesKeepEvents};

/// The law of lifetimes: take a file that stands for some events, whatever a crash leaves of it. After any runs of both programs, each
/// stopped at any moment, with a crash between any two, it stands for whole events that begin with those. Where a run had printed
/// anything before it was stopped, the events that the run found and those whose reply it had begun are the first of them. Each event
/// is one of the start or one that a run made, on those before it.
pub fn law_of_lifetimes()
    ensures safe { FilesAtRestAreSafe }
    ensures lives { LivesKeepEvents }
{}

/// The law of lives behind guards: where all runs are behind guards of readers, workspaces are opened, and nothing else changes from
/// the start to the end. Where all are behind guards of writers of one branch, all but what concerns that branch stays.
pub fn law_of_guarded_lifetimes()
    ensures readers { ReadersLives }
    ensures writers { WritersLives }
{}
