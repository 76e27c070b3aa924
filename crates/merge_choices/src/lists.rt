//! The list of an update or a merge, whichever side comes first.
ghost use Rattle.std.specs.Prelude.{◌≡◌, ◌++◌, ℕ, Bool, IfOk, length};
ghost use Rattle.model_state.specs.Packages.{rev_package};
ghost use Rattle.merge_laws.specs.Merge.{kept, dropped};
ghost use Rattle.merge_choices.specs.Flags.{is_flagged};

use crate::picking::{keep, pick};
use model_state::{Operation, Package};
use reversals::reverse;
use std::alloc::{AllocError, Global};

/// The reversal of what the flags drop of the list that is applied already, and then what they keep of the other.
pub(crate) fn list_after(
    alloc: Global,
    drops_applied: &[bool],
    applied: &[Operation],
    drops_other: &[bool],
    other: &[Operation],
) -> Result<Package, AllocError>
    requires applied { length drops_applied.now ≡ length applied.now }
    requires other { length drops_other.now ≡ length other.now }
    ensures { IfOk result (λ p. p ≡ rev_package (dropped (is_flagged drops_applied.now) applied.now) ++ kept (is_flagged drops_other.now) other.now) }
{
    let gone = pick(alloc, drops_applied, applied)?;
    let mut out = reverse(alloc, &gone)?;
    keep(alloc, drops_other, other, &mut out)?;
    Ok(out)
}
