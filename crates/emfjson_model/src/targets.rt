//! Targets in the order of their list, among which one is soon found.
ghost use Rattle.std.specs.Prelude.{◌≡◌, ◌∷◌, ◌++◌, [], IfOk, nat_eq};
ghost use Rattle.std.specs.List.{list_any};

use std::alloc::{AllocError, Global};
use std::collections::BTreeSet;
use std::marker::Model;
use texts::List;

/// Targets in order; it is soon found whether a number is among them.
#[derive(Drop)]
pub(crate) struct Targets {
    list: List<usize>,
    set: BTreeSet<usize>,
}

impl Model for Targets {
    ghost use Rattle.std.specs.Prelude.{ℕ, List};
    ghost use Rattle.emfjson_model.specs.Targets.{HasThese};

    ghost Value = { List ℕ };

    ghost view = { λ a. a.list };

    ghost invariant = { λ a. HasThese a.set a.list };
}

impl Targets {
    /// No targets.
    pub fn new(alloc: Global) -> Targets
        ensures { result ≡ [] }
    {
        Targets {
            list: List::new(alloc),
            set: BTreeSet::new(alloc),
        }
    }

    /// The targets of a list. The error is out of memory.
    pub fn of(alloc: Global, list: &[usize]) -> Result<Targets, AllocError>
        ensures { IfOk result (λ targets. targets ≡ list.now) }
    {
        let mut targets = Targets::new(alloc);
        for n in list {
            targets = targets.with(*n)?;
        }
        Ok(targets)
    }

    /// Whether the number is among the targets.
    pub fn has(&self, n: usize) -> bool
        ensures { result ≡ list_any (nat_eq n) self.now }
    {
        self.set.contains(&n)
    }

    /// The same with one more at the end. The error is out of memory.
    pub fn with(self, n: usize) -> Result<Targets, AllocError>
        ensures { IfOk result (λ targets. targets ≡ self ++ n ∷ []) }
    {
        let Targets { mut list, mut set } = self;
        list.push(n)?;
        set.insert(n)?;
        Ok(Targets { list, set })
    }

    /// The list of the targets.
    pub fn into_list(self) -> List<usize>
        ensures { result ≡ self }
    {
        self.list
    }
}
