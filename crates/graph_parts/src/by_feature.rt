//! What stands by feature in one vector.
ghost use Rattle.std.specs.Prelude.{◌≡◌, ℕ, Some, None, OnOk, OnErr, nat_eq, position};
ghost use Rattle.finite_maps.specs.Maps.{set};
ghost use Rattle.graph_parts.specs.Parts.{flat};

use std::alloc::AllocError;

/// The index of a feature.
pub fn index_of<T>(items: &[(u32, T)], f: u32) -> Option<usize>
    ensures { result ≡ position (λ (e : ℕ × T). nat_eq e.0 f) items.now }
{
    items.iter().position(|e| e.0 == f)
}

/// Puts in a feature that is not there, and makes room for no more. The error is out of memory.
pub fn add<T: Drop>(items: &mut Vec<(u32, T)>, f: u32, x: T) -> Result<(), AllocError>
    requires { position (λ (e : ℕ × T). nat_eq e.0 f) items.old.items ≡ None }
    ensures ok { OnOk result (flat items.new.items ≡ set (flat items.old.items) f (Some x)) }
    ensures err { OnErr result (items.new.items ≡ items.old.items) }
{
    items.reserve_exact(1)?;
    items.push_reserved((f, x));
    Ok(())
}

/// Takes a feature out, where it is there. This takes no memory.
pub fn without<T: Drop>(items: &mut Vec<(u32, T)>, f: u32)
    ensures { flat items.new.items ≡ set (flat items.old.items) f None }
{
    items.retain(|e| e.0 != f);
}
