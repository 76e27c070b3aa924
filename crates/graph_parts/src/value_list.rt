//! The values of one attribute.
ghost use Rattle.std.specs.Prelude.{◌≡◌, ◌≤◌, ◌<◌, length, IfOk, OnOk, OnErr, slice_get};
ghost use Rattle.std.specs.List.{insert, remove, list_any};
ghost use Rattle.std.specs.Option.{option_copied};
ghost use Rattle.model_state.specs.Typing.{value_eq};
ghost use Rattle.model_state.specs.Lists.{shifted};

use crate::pieces::{MOST_IN_PIECE, Pieces};
use ecore_meta::Value;
use model_state::{contains, copied_values};
use std::alloc::{AllocError, Global};
use std::marker::Model;
use texts::List;

/// The values of one attribute, which contracts see as their list.
///
/// They begin in one vector. Once they are more than a piece holds, and for good, they stand in pieces. A value is put in
/// or taken out at the cost of a piece, and of one step for each piece before it.
#[derive(Drop)]
pub struct ValueList {
    few: List<Value>,
    many: Option<Box<Pieces>>,
}

impl Model for ValueList {
    ghost use Rattle.std.specs.Prelude.{List};
    ghost use Rattle.ecore_meta.specs.declared.meta.Value as value;
    ghost use Rattle.graph_parts.specs.Pieces.{held, list_code};

    ghost Value = { List value.Value };

    ghost coded = { list_code };

    ghost view = { λ a. held a.few a.many };
}

/// The same values, in no more memory than they need.
fn trimmed(values: List<Value>) -> List<Value>
    ensures { result ≡ values }
{
    let mut items = values.into_vec();
    items.shrink_to_fit();
    List::from_vec(items)
}

impl ValueList {
    /// The same values, in no more memory than they need.
    pub fn from_list(values: List<Value>) -> ValueList
        ensures { result ≡ values }
    {
        ValueList {
            few: trimmed(values),
            many: None,
        }
    }

    /// How many values there are.
    pub fn len(&self) -> usize
        ensures { result ≡ length self.now }
    {
        match &self.many {
            None => self.few.len(),
            Some(pieces) => pieces.len(),
        }
    }

    /// The value at an index, `None` past the last.
    pub fn get(&self, at: usize) -> Option<&Value>
        ensures { option_copied result ≡ slice_get self.now at }
    {
        match &self.many {
            None => self.few.get(at),
            Some(pieces) => pieces.get(at),
        }
    }

    /// Whether the value is among these.
    pub fn has(&self, v: &Value) -> bool
        ensures { result ≡ list_any (value_eq v.now) self.now }
    {
        match &self.many {
            None => contains(self.few.as_slice(), v),
            Some(pieces) => pieces.has(v),
        }
    }

    /// The values in one list, in memory of their own.
    pub fn list(&self, alloc: Global) -> Result<List<Value>, AllocError>
        ensures { IfOk result (λ l. l ≡ self.now) }
    {
        match &self.many {
            None => copied_values(alloc, self.few.as_slice()),
            Some(pieces) => pieces.list(alloc),
        }
    }

    /// The same values in memory of their own.
    pub fn copy(&self, alloc: Global) -> Result<ValueList, AllocError>
        ensures { IfOk result (λ l. l ≡ self.now) }
    {
        match &self.many {
            None => Ok(ValueList {
                few: copied_values(alloc, self.few.as_slice())?,
                many: None,
            }),
            Some(pieces) => {
                let many = Box::new(alloc, pieces.copy(alloc)?)?;
                Ok(ValueList {
                    few: List::new(alloc),
                    many: Some(many),
                })
            }
        }
    }

    /// Moves the values into pieces. The error is out of memory.
    fn cut_up(&mut self, alloc: Global) -> Result<(), AllocError>
        ensures { self.new ≡ self.old }
    {
        if self.many.is_none() && self.few.len() >= MOST_IN_PIECE {
            let many = Box::new(alloc, Pieces::of(alloc, self.few.as_slice())?)?;
            self.few = List::new(alloc);
            self.many = Some(many);
        }
        Ok(())
    }

    /// Puts a value in, before the one at the index or last. The error is out of memory.
    pub fn insert(&mut self, alloc: Global, at: usize, v: Value) -> Result<(), AllocError>
        requires { at ≤ length self.old }
        ensures ok { OnOk result (self.new ≡ insert self.old at v) }
        ensures err { OnErr result (self.new ≡ self.old) }
    {
        self.cut_up(alloc)?;
        match &mut self.many {
            None => self.few.insert(at, v),
            Some(pieces) => pieces.insert(at, v),
        }
    }

    /// Takes the value at an index out. An attribute without values isn't set, so a caller leaves some.
    pub fn remove(&mut self, at: usize)
        requires { at < length self.old }
        ensures { self.new ≡ remove self.old at }
    {
        match &mut self.many {
            None => drop(self.few.remove(at)),
            Some(pieces) => pieces.remove(at),
        }
    }

    /// Takes the value at one index out and puts it in at another. The error is out of memory.
    pub fn shift(&mut self, alloc: Global, from: usize, to: usize) -> Result<(), AllocError>
        requires from { from < length self.old }
        requires to { to < length self.old }
        ensures ok { OnOk result (self.new ≡ shifted self.old from to) }
        ensures err { OnErr result (self.new ≡ self.old) }
    {
        let Some(v) = self.get(from) else {
            unreachable!()
        };
        let v = v.copy(alloc)?;
        // For its bound alone: there is an index after each that is below it.
        let _count = self.len();
        if from < to {
            self.insert(alloc, to + 1, v)?;
            self.remove(from);
        } else {
            self.insert(alloc, to, v)?;
            self.remove(from + 1);
        }
        Ok(())
    }
}
