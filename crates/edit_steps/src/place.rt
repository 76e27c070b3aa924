//! Whether the feature of a place is a containment.
ghost use Rattle.std.specs.Prelude.{◌≡◌};
ghost use Rattle.model_state.specs.Typing.{is_containment, kind_of};

use ecore_meta::{Kind, Metamodel};

/// Whether the feature is a containment.
pub fn is_containment(meta: &Metamodel, f: u32) -> bool
    ensures { result ≡ is_containment (kind_of meta.now f) }
{
    if f < meta.feature_count() {
        match &meta.feature(f).kind {
            Kind::Contains { .. } => true,
            _ => false,
        }
    } else {
        false
    }
}
