//! The ranks by which lists are ordered: a rank between two neighbours, or after the last.
ghost use Rattle.std.specs.Prelude.{◌≡◌, ◌≤◌, IfSome};
ghost use Rattle.model_state.specs.Ranks.{rank_between};

/// How far a rank stands from the one before it, where a list is renumbered or an entry comes last: `2^32`.
pub const RANK_GAP: u64 = 4_294_967_296;

/// The most values of an attribute. A list of references or a place with so many other entries isn't renumbered.
pub const MOST_ENTRIES: usize = 4_294_967_295;

/// A rank between that of one entry and that of the next, or after the last: midway, or `RANK_GAP` further on. None
/// where no number lies strictly between, or where the sum passes a `u64`; the list is then to be renumbered.
pub fn rank_between(lo: u64, hi: Option<u64>) -> Option<u64>
    requires { IfSome hi (λ h. lo ≤ h) }
    ensures rank { result ≡ rank_between lo hi }
{
    match hi {
        None => lo.checked_add(RANK_GAP),
        Some(hi) => {
            let gap = hi - lo;
            if gap < 2 { None } else { Some(lo + gap / 2) }
        }
    }
}
