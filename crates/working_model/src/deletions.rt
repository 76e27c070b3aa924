//! Which of a workspace's ids steps free.
ghost use Rattle.std.specs.Prelude.{◌≡◌, ◌≤◌, ◌<◌, ◌++◌, ◌^◌, ℕ, IfSome, Some, false};
ghost use Rattle.std.specs.Fmt.{decimal};
ghost use Rattle.std.specs.List.{list_any};
ghost use Rattle.edits.specs.FreshIds.{numbered};
ghost use Rattle.working_model.specs.Taken.{deletes};

use model_state::{Id, Step};
use std::alloc::Global;

/// The number that an id has behind the prefix.
fn number_of(prefix: &str, e: &Id) -> Option<u64>
    ensures { (j : ℕ) → j < 2 ^ 64 → e.now ≡ prefix.now ++ decimal j → result ≡ Some j }
{
    match e.as_str().strip_prefix(prefix) {
        None => None,
        Some(number) => number.parse::<u64>().ok(),
    }
}

/// The lesser of two numbers, of which one may be missing.
fn lesser(from: u64, number: Option<u64>) -> u64
    ensures below { result ≤ from }
    ensures under { IfSome number (λ n. result ≤ n) }
{
    match number {
        None => from,
        Some(number) => from.min(number),
    }
}

/// The number, or that of the id that the step deletes, if that is less.
fn least_of(prefix: &str, from: u64, step: &Step) -> u64
    ensures below { result ≤ from }
    ensures kept { (j : ℕ) → j < result → deletes (prefix.now ++ decimal j) step.now ≡ false }
{
    match step {
        Step::Gone { e, .. } => lesser(from, number_of(prefix, e)),
        _ => from,
    }
}

/// The least of the number and those of the ids that the steps delete.
fn least_freed(prefix: &str, from: u64, steps: &[Step]) -> u64
    ensures below { result ≤ from }
    ensures kept { (j : ℕ) → j < result → list_any (deletes (prefix.now ++ decimal j)) steps.now ≡ false }
{
    let mut least = from;
    for step in steps {
        least = least_of(prefix, least, step);
    }
    least
}

/// The number up to which the steps delete none of a workspace's ids: at most the given one, and 1 where no memory is left
/// to tell.
pub(crate) fn kept_up_to(alloc: Global, ws: u32, next: u64, steps: &[Step]) -> u64
    requires { 1 ≤ next }
    ensures from { 1 ≤ result }
    ensures below { result ≤ next }
    ensures kept { (j : ℕ) → 1 ≤ j → j < result → list_any (deletes (numbered ws j)) steps.now ≡ false }
{
    match format!(in alloc; "w{ws}n") {
        Err(_) => 1,
        Ok(prefix) => least_freed(prefix.as_str(), next, steps).max(1),
    }
}
