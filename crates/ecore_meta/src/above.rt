//! The table of the classes above each class.
ghost use Rattle.std.specs.Prelude.{◌≡◌, map, slice_get};
ghost use Rattle.std.specs.Option.{option_copied};
ghost use Rattle.ecore_meta.specs.Meta.{is_in};

use std::collections::BTreeSet;

pub(crate) fn set_at(above: &[BTreeSet<u32>], c: u32) -> Option<&BTreeSet<u32>>
    ensures { option_copied result ≡ slice_get above.now c }
{
    above.get(c as usize)
}

/// Whether a table of classes, each with all above it, has d among those of c.
pub fn is_in(above: &[BTreeSet<u32>], c: u32, d: u32) -> bool
    ensures { result ≡ is_in (map (λ s. s.keys) above.now) c d }
{
    match set_at(above, c) {
        None => false,
        Some(set) => set.contains(&d),
    }
}
