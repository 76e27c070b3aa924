//! The counts of values.
ghost use Rattle.std.specs.Prelude.{◌≡◌, ◌<◌, ◌++◌, [], List, OnOk, OnErr};
ghost use Rattle.std.specs.List.{list_any};
ghost use Rattle.ecore_meta.specs.declared.meta.Value as value;
ghost use Rattle.model_state.specs.Typing.{value_eq};
ghost use Rattle.value_counts.specs.Counts.{count_of, Counts, IsOneMore, IsSame};

use crate::trees::{
    add_literal, add_text, add_whole, literal_count, one_more, take_literal, take_text, take_whole,
    text_count, whole_count,
};
use ecore_meta::Value;
use std::alloc::{AllocError, Global};
use std::collections::BTreeMap;

/// How often each value is held. To count one more or less, and to ask for one, costs a logarithm of how many different ones
/// there are.
#[derive(Drop)]
pub struct ValueCounts {
    alloc: Global,
    texts: BTreeMap<String, u64>,
    wholes: BTreeMap<i64, u64>,
    literals: BTreeMap<u32, u64>,
    yes: u64,
    no: u64,
}

impl ValueCounts {
    /// Nothing is counted.
    pub fn new(alloc: Global) -> ValueCounts
        ensures { Counts result [] }
    {
        ValueCounts {
            alloc,
            texts: BTreeMap::new(alloc),
            wholes: BTreeMap::new(alloc),
            literals: BTreeMap::new(alloc),
            yes: 0,
            no: 0,
        }
    }

    /// How often the value is counted.
    fn count(&self, v: &Value) -> u64
        ensures { result ≡ count_of self.now v.now }
    {
        match v {
            Value::Text(text) => text_count(&self.texts, text.as_str()),
            Value::Flag(flag) => { if *flag { self.yes } else { self.no } }
            Value::Whole(whole) => whole_count(&self.wholes, whole),
            Value::Literal(number) => literal_count(&self.literals, *number),
        }
    }

    /// Whether the value is among those that are counted.
    pub fn has(&self, v: &Value) -> bool
        ensures { (vs : List value.Value) → Counts self.now vs → result ≡ list_any (value_eq v.now) vs }
    {
        self.count(v) > 0
    }

    /// Counts the value once more. The error is out of memory.
    pub fn add(&mut self, v: &Value) -> Result<(), AllocError>
        ensures ok { OnOk result (IsOneMore self.old self.new v.now) }
        ensures err { OnErr result (IsSame self.old self.new) }
    {
        match v {
            Value::Text(text) => add_text(self.alloc, &mut self.texts, text.as_str())?,
            Value::Flag(flag) => {
                if *flag {
                    self.yes = one_more(self.yes)?;
                } else {
                    self.no = one_more(self.no)?;
                }
            }
            Value::Whole(whole) => add_whole(&mut self.wholes, whole)?,
            Value::Literal(number) => add_literal(&mut self.literals, *number)?,
        }
        Ok(())
    }

    /// Counts each of the values once more. The error is out of memory.
    pub fn add_all(&mut self, values: &[Value]) -> Result<(), AllocError>
        ensures { (vs : List value.Value) → Counts self.old vs → OnOk result (Counts self.new (vs ++ values.now)) }
    {
        for value in values {
            self.add(value)?;
        }
        Ok(())
    }

    /// Counts a value that is counted once less. This takes no memory.
    pub fn take(&mut self, v: &Value)
        requires { 0 < count_of self.old v.now }
        ensures { IsOneMore self.new self.old v.now }
    {
        match v {
            Value::Text(text) => take_text(&mut self.texts, text.as_str()),
            Value::Flag(flag) => {
                if *flag {
                    self.yes -= 1;
                } else {
                    self.no -= 1;
                }
            }
            Value::Whole(whole) => take_whole(&mut self.wholes, whole),
            Value::Literal(number) => take_literal(&mut self.literals, *number),
        }
    }
}
