//! Runs of commands, as definitions: what is printed in reply to the items of a script, which events are made, what a
//! crash may leave. They hold of any program: of any `decide`, which answers an item on a state, and any `play`,
//! which makes an event on one. The laws that a loop over commands needs stand in `proofs`.
#![tactic(auto)]
