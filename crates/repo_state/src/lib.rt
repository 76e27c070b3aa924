//! The repository in memory: what is kept of it and read again, and what each event makes of it.
#![tactic(auto)]

mod evolving;
mod fault;
mod following;
mod growing;
mod handing;
mod laws;
mod making;
mod merging;
mod planning;
mod recent;
mod repo;
mod sizes;
mod workspace;

pub use fault::PlayFault;
pub use laws::law_of_counts;
pub use merging::{Merged, Updated};
pub use repo::{Begun, Repo};
pub use workspace::{Composite, Workspace};
