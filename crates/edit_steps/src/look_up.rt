//! The rank of the mirror of a reference, looked up in a model.
ghost use Rattle.std.specs.Prelude.{◌≡◌};
ghost use Rattle.edit_steps.specs.Rows.{mirror_rank};

use model_state::{Id, Look};

/// The rank of the mirror of a reference to b; 0 where there is none.
pub fn rank_of_mirror<L: Look>(look: &L, opposite: Option<u32>, a: &Id, b: &Id) -> u64
    ensures { result ≡ mirror_rank (L.state look.now).row opposite a.now b.now }
{
    match opposite {
        None => 0,
        Some(g) => look.row(b, g, a).unwrap_or(0),
    }
}
