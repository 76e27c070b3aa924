//! The metamodel is extended, and the store is upgraded.
ghost use Rattle.std.specs.Prelude.{◌≡◌, ◌<◌, ◌-◌, ◌^◌, IfOk, IsErrOf, OnErr, OnOk, Some, false, length, option_map, true};
ghost use Rattle.op_form.specs.declared.event.Event.TheVariants.{Evolve, Upgrade};
ghost use Rattle.op_form.specs.Formed.{IsEvent};
ghost use Rattle.plain_repository.specs.Events.{effect, playable_with};
ghost use Rattle.plain_repository.specs.Metamodels.{can_evolve, grown};

use crate::fault::PlayFault;
use crate::making::read_meta;
use crate::repo::Repo;
use ecore_meta::Metamodel;
use metamodel_growth::{EvolveFault, evolve, is_same};
use std::alloc::Global;
use texts::Text;

/// The metamodel that a text extends another to, where it is another.
fn extended(alloc: Global, old: &Metamodel, text: &Text) -> Result<Metamodel, PlayFault>
    requires short { length text.now < 2 ^ 32 - 1 }
    ensures could { IfOk result (λ _. can_evolve old.now text.now ≡ true) }
    ensures grown { IfOk result (λ m. m ≡ grown text.now old.now) }
    ensures cannot { IsErrOf result PlayFault.NotPlayable → can_evolve old.now text.now ≡ false }
{
    let next = read_meta(alloc, text)?;
    match evolve(alloc, old, next) {
        Ok(meta) => {
            if is_same(old, &meta) {
                return Err(PlayFault::NotPlayable);
            }
            Ok(meta)
        }
        Err(EvolveFault::NotExtension { .. }) => Err(PlayFault::NotPlayable),
        Err(EvolveFault::Memory) => Err(PlayFault::Memory),
    }
}

impl Repo {
    /// The metamodel that a text extends the present one to, where it is another.
    fn extended(&self, alloc: Global, text: &Text) -> Result<Metamodel, PlayFault>
        requires short { length text.now < 2 ^ 32 - 1 }
        ensures could { IfOk result (λ _. playable_with self.now self.now.meta (Evolve text.now) ≡ true) }
        ensures grown { IfOk result (λ m. option_map (grown text.now) self.now.meta ≡ Some m) }
        ensures cannot { IsErrOf result PlayFault.NotPlayable → playable_with self.now self.now.meta (Evolve text.now) ≡ false }
    {
        match self.begun() {
            None => Err(PlayFault::NotPlayable),
            Some(begun) => extended(alloc, &begun.meta, text),
        }
    }

    /// The metamodel is extended to that of a text. What was recorded keeps its numbers and its effect, so each model that
    /// is kept stays.
    pub fn evolve(&mut self, alloc: Global, text: &Text) -> Result<(), PlayFault>
        requires short { length text.now < 2 ^ 32 - 1 }
        requires spelled { IsEvent (Evolve text.now) }
        ensures could { OnOk result (playable_with self.old self.old.meta (Evolve text.now) ≡ true) }
        ensures done { OnOk result (self.new ≡ effect self.old (Evolve text.now)) }
        ensures same { OnErr result (self.new ≡ self.old) }
        ensures cannot { IsErrOf result PlayFault.NotPlayable → playable_with self.old self.old.meta (Evolve text.now) ≡ false }
    {
        self.recall_order();
        let meta = self.extended(alloc, text)?;
        let Some(begun) = &mut self.begun else {
            unreachable!()
        };
        begun.meta = meta;
        Ok(())
    }

    /// Each version is signed from now on.
    pub fn upgrade(&mut self)
        requires could { playable_with self.old self.old.meta Upgrade ≡ true }
        ensures done { self.new ≡ effect self.old Upgrade }
    {
        let Some(begun) = &mut self.begun else {
            unreachable!()
        };
        begun.upgraded = true;
    }
}
