//! The search for a rule that applies.
ghost use Rattle.std.specs.Prelude.{◌≡◌, ◌<◌, IfOk, MatchOption, length};
ghost use Rattle.cell_index.specs.Standing.{ListsStanding};
ghost use Rattle.canoniser.specs.Meetings.{RuleAt, NoRuleAt};

use crate::joining::{is_met, left_of};
use cell_index::Standing;
use footprint::Print;
use model_state::Operation;
use std::alloc::{AllocError, Global};

/// A position before an operation at which a rule applies to it, and what the rule leaves.
#[derive(Drop)]
pub(crate) struct Found {
    pub at: usize,
    pub left: Option<Operation>,
}

/// The rule that applies to the operation of the position and the nearest earlier one, with no operation between them that
/// interferes. A rule applies only to operations that touch. Two that touch and to which no rule applies interfere; so
/// the last that touches decides.
pub(crate) fn nearest(
    alloc: Global,
    list: &[Operation],
    standing: &Standing,
    prints: &[Print],
    at: usize,
) -> Result<Option<Found>, AllocError>
    requires keeps { ListsStanding standing.now prints.now }
    requires within { at < length list.now }
    requires many { length prints.now ≡ length list.now }
    ensures { IfOk result (λ r. MatchOption r (NoRuleAt standing.now.stands.items prints.now list.now at) (λ f. RuleAt standing.now.stands.items prints.now list.now at f.at f.left)) }
{
    match standing.last(prints, at) {
        None => Ok(None),
        Some(i) => {
            let (a, b) = (&list[i], &list[at]);
            if !is_met(a, b) {
                return Ok(None);
            }
            let left = left_of(alloc, a, b)?;
            Ok(Some(Found { at: i, left }))
        }
    }
}
