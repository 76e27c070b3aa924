//! The removal of a reference with its opposite.
ghost use Rattle.std.specs.Prelude.{◌≡◌, ◌∷◌, [], ◌++◌, IfOk, OnOk, IfErr, None};
ghost use Rattle.model_state.specs.Typing.{opposite_of};
ghost use Rattle.model_state.specs.Good.{Good};
ghost use Rattle.edit_steps.specs.Rows.{unlink_step, unlinks};
ghost use Rattle.edit_steps.specs.References.{unlink_made};
ghost use Rattle.edit_steps.specs.Refusals.{unlink_refusal};
ghost use Rattle.edit_steps.specs.LinkRefusals.{IsReference, IsLinkRefusal};

use crate::LinkFault;
use crate::look_up::rank_of_mirror;
use ecore_meta::Metamodel;
use model_state::{Entry, Id, Look, Step, opposite_of};
use std::alloc::{AllocError, Global};
use texts::List;

/// The unlink of a reference and its mirror, written from the side whose feature has the lesser number.
pub fn unlink_step(
    alloc: Global,
    opposite: Option<u32>,
    a: &Id,
    f: u32,
    ra: u64,
    b: &Id,
    rb: u64,
) -> Result<Step, AllocError>
    ensures { IfOk result (λ s. s ≡ unlink_step opposite a.now f ra b.now rb) }
{
    let a = a.copy(alloc)?;
    let b = b.copy(alloc)?;
    match opposite {
        None => Ok(Step::Unlink {
            a,
            f,
            ra,
            b,
            rb: None,
        }),
        Some(g) => {
            if g < f {
                Ok(Step::Unlink {
                    a: b,
                    f: g,
                    ra: rb,
                    b: a,
                    rb: Some(ra),
                })
            } else {
                Ok(Step::Unlink {
                    a,
                    f,
                    ra,
                    b,
                    rb: Some(rb),
                })
            }
        }
    }
}

/// The unlinks of entries of a feature of an element.
pub fn unlinks<L: Look>(
    alloc: Global,
    look: &L,
    opposite: Option<u32>,
    a: &Id,
    f: u32,
    list: &[Entry],
    steps: &mut List<Step>,
) -> Result<(), AllocError>
    ensures { OnOk result (steps.new ≡ steps.old ++ unlinks (L.state look.now).row opposite a.now f list.now) }
{
    for x in list {
        let rb = rank_of_mirror(look, opposite, a, &x.id);
        steps.push(unlink_step(alloc, opposite, a, f, x.rank, &x.id, rb)?)?;
    }
    Ok(())
}

fn one_unlink<L: Look>(
    alloc: Global,
    look: &L,
    meta: &Metamodel,
    a: &Id,
    f: u32,
    ra: u64,
    b: &Id,
) -> Result<List<Step>, AllocError>
    ensures { IfOk result (λ s. s ≡ unlinks (L.state look.now).row (opposite_of meta.now f) a.now f (record { rank = ra; id = b.now } ∷ [])) }
{
    let opposite = opposite_of(meta, f);
    let rb = rank_of_mirror(look, opposite, a, b);
    let mut steps = List::new(alloc);
    steps.push(unlink_step(alloc, opposite, a, f, ra, b, rb)?)?;
    Ok(steps)
}

/// The step that takes a reference away, and its opposite with it. NoEntry where it isn't there.
pub fn unlink_steps<L: Look>(
    alloc: Global,
    look: &L,
    meta: &Metamodel,
    a: &Id,
    f: u32,
    b: &Id,
) -> Result<List<Step>, LinkFault>
    requires good { Good meta.now (L.state look.now) }
    requires reference { IsReference meta.now (L.state look.now) a.now f }
    ensures made { IfOk result (λ s. s ≡ unlink_made meta.now (L.state look.now).row a.now f b.now) }
    ensures taken { OnOk result (unlink_refusal (L.state look.now) a.now f b.now ≡ None) }
    ensures refused { IfErr result (λ e. IsLinkRefusal (unlink_refusal (L.state look.now) a.now f b.now) e) }
{
    let Some(ra) = look.row(a, f, b) else {
        return Err(LinkFault::NoEntry);
    };
    Ok(one_unlink(alloc, look, meta, a, f, ra, b)?)
}
