//! Roles: a policy is read from a text, and says which commands a user may give. It knows no passwords: who a user is, the caller
//! says.
#![tactic(auto)]

mod access;
mod fault;
mod kind;
mod laws;
mod policy;
mod reading;
mod turns;

pub use access::{Access, check};
pub use fault::PolicyFault;
pub use kind::{command_kind, workspace_in};
pub use laws::law_of_policies;
pub use policy::{Grant, Policy, Role};
pub use reading::read_policy;
pub use turns::own_rule;
