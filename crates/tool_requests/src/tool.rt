//! What the words of the command line ask for.
use crate::guard::Guard;
use access_rules::Policy;
use script_lang::Spec;
use texts::Text;

/// What the words of the command line ask for.
#[derive(Drop)]
pub enum Request {
    /// `replay`: the store is printed as the script that makes it again.
    Replay,
    /// One of the others, which work over a store that is open.
    Work(Tool),
}

/// What may be asked of a store that is open.
#[derive(Drop)]
pub enum Tool {
    /// `query SPEC ID CLASS FEATURE`: which version up to SPEC wrote the feature of the element last.
    Query {
        spec: Spec,
        element: Text,
        class: Text,
        feature: Text,
    },
    /// `blame SPEC ID`: the same of each feature of the element.
    Blame {
        spec: Spec,
        element: Text,
    },
    /// `guard USER POLICY`: the lines of the input are answered, but for those that the policy denies to the user.
    Guard(Guard),
    /// `serve POLICY`: the turns of the input are answered, each behind a guard of its user.
    Serve(Policy),
}
