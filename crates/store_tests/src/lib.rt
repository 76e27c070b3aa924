//! Tests of both programs over their public calls, with hosts in memory, some of whose calls fail, and of the policies
//! that the second one reads. A crate that holds its own tests is proved twice. What the first one answers is told by
//! the sessions of sessions/, which run on the built program.
#![tactic(auto)]

#[cfg(test)]
mod faults;
#[cfg(test)]
mod frames;
#[cfg(test)]
mod hosts;
#[cfg(test)]
mod policies;
#[cfg(test)]
mod replies;
#[cfg(test)]
mod tool_runs;
