//! The host of a program over one file, for any system: calls that a signal interrupts are made again, and those that do a part
//! are gone on with. Over a system that reports, it is a host that reports.
#![tactic(auto)]

mod calls;
mod host;
mod known;
mod opening;
mod store;

pub use host::FileHost;
