//! A value in a block of its own that contracts see as the value.
ghost use Rattle.std.specs.Prelude.{◌≡◌, IfOk};

use std::alloc::{AllocError, Global};
use std::fmt;
use std::marker::Model;

/// A value in memory of its own, which contracts see as the value. It takes 8 bytes where it is kept, so that a rare part of a type may be large.
pub struct Boxed<T> {
    item: Box<T>,
}

impl<T> Model for Boxed<T> {
    ghost Value = { T };

    ghost view = { λ a. a.item.value };
}

/// One call, so that a proof has no branches for what the value holds.
impl<T: Drop> Drop for Boxed<T> {
    fn drop(self) {
        let Boxed { item: _item } = self;
    }
}

impl<T> Boxed<T> {
    /// The value, to be read.
    pub fn get(&self) -> &T
        ensures { result.now ≡ self.now }
    {
        self.item.as_ref()
    }
}

impl<T: Drop> Boxed<T> {
    /// The value in memory of its own. The error is out of memory; the value is gone then.
    pub fn new(alloc: Global, item: T) -> Result<Boxed<T>, AllocError>
        ensures { IfOk result (λ boxed. boxed ≡ item) }
    {
        Ok(Boxed {
            item: Box::new(alloc, item)?,
        })
    }
}

/// Shows the value, as it would be without the box.
impl<T: fmt::Debug> fmt::Debug for Boxed<T> {
    fn fmt<W: fmt::Write>(&self, f: &mut fmt::Formatter<W>) -> fmt::Result {
        fmt::Debug::fmt(self.get(), f)
    }
}
