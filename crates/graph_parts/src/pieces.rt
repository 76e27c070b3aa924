//! Many values in pieces, so that one is put in or taken out without moving all that stand after it.
ghost use Rattle.std.specs.Prelude.{◌≡◌, ◌≤◌, ◌<◌, ◌+◌, ◌++◌, [], Some, length, take, get_or, IfOk, OnOk, OnErr, slice_get};
ghost use Rattle.std.specs.List.{insert, remove, list_any};
ghost use Rattle.std.specs.Option.{option_copied};
ghost use Rattle.model_state.specs.Typing.{value_eq};
ghost use Rattle.value_counts.specs.Counts.{Counts};
ghost use Rattle.graph_parts.specs.Pieces.{joined};

use ecore_meta::Value;
use model_state::copied_values;
use std::alloc::{AllocError, Global};
use std::marker::Model;
use texts::List;
use value_counts::ValueCounts;

/// How many values a piece gets before it is cut in two.
pub(crate) const MOST_IN_PIECE: usize = 512;

/// Many values, which contracts see as their list. A value is found by the lengths of the pieces before its own. Beside them
/// stands how often each is there, so that to ask whether one is there goes over none.
#[derive(Drop)]
pub(crate) struct Pieces {
    pieces: Vec<List<Value>>,
    len: usize,
    counts: ValueCounts,
}

impl Model for Pieces {
    ghost use Rattle.std.specs.Prelude.{◌≡◌, ◌<◌, List, length};
    ghost use Rattle.ecore_meta.specs.declared.meta.Value as value;
    ghost use Rattle.value_counts.specs.Counts.{Counts};
    ghost use Rattle.graph_parts.specs.Pieces.{joined, list_code};

    ghost Value = { List value.Value };

    ghost coded = { list_code };

    ghost view = { λ a. joined a.pieces.items };

    ghost invariant = { λ a. (a.len ≡ length (joined a.pieces.items)) × (0 < length a.pieces.items) × Counts a.counts (joined a.pieces.items) };
}

/// The piece in which an index falls, and the index in it.
fn find(pieces: &[List<Value>], at: usize) -> (usize, usize)
    requires { at < length (joined pieces.now) }
    ensures piece { result.0 < length pieces.now }
    ensures within { result.1 < length (get_or pieces.now result.0 []) }
    ensures index { length (joined (take result.0 pieces.now)) + result.1 ≡ at }
{
    let mut left = at;
    for piece in 0..pieces.len() {
        let len = pieces[piece].len();
        if left < len {
            return (piece, left);
        }
        left -= len;
    }
    unreachable!()
}

/// The piece into which a value comes that is put in at an index, and its index there. It comes into the piece of the value
/// before it.
fn find_gap(pieces: &[List<Value>], at: usize) -> (usize, usize)
    requires some { 0 < length pieces.now }
    requires at { at ≤ length (joined pieces.now) }
    ensures piece { result.0 < length pieces.now }
    ensures within { result.1 ≤ length (get_or pieces.now result.0 []) }
    ensures index { length (joined (take result.0 pieces.now)) + result.1 ≡ at }
{
    if at == 0 {
        return (0, 0);
    }
    let (piece, index) = find(pieces, at - 1);
    (piece, index + 1)
}

/// Cuts a piece at an index, where there is memory for that.
fn cut(pieces: &mut Vec<List<Value>>, piece: usize, at: usize)
    requires piece { piece < length pieces.old.items }
    requires at { at ≤ length (get_or pieces.old.items piece []) }
    ensures same { joined pieces.new.items ≡ joined pieces.old.items }
    ensures some { 0 < length pieces.new.items }
{
    if pieces.reserve(1).is_err() {
        return;
    }
    let Ok(rest) = pieces[piece].split_off(at) else {
        return;
    };
    if pieces.insert(piece + 1, rest).is_err() {
        unreachable!()
    }
}

/// Where a piece of so many values is cut after one was put in: before that one where it is the last, so that a list that
/// grows at its end has full pieces.
fn cut_place(len: usize, index: usize) -> usize
    requires { index < len }
    ensures { result ≤ len }
{
    if index + 1 == len { index } else { len / 2 }
}

/// Puts a value into the pieces. The error is out of memory.
fn insert_among(pieces: &mut Vec<List<Value>>, at: usize, v: Value) -> Result<(), AllocError>
    requires some { 0 < length pieces.old.items }
    requires at { at ≤ length (joined pieces.old.items) }
    ensures ok { OnOk result (joined pieces.new.items ≡ insert (joined pieces.old.items) at v) }
    ensures some { 0 < length pieces.new.items }
    ensures err { OnErr result (joined pieces.new.items ≡ joined pieces.old.items) }
{
    let (piece, index) = find_gap(pieces.as_slice(), at);
    pieces[piece].insert(index, v)?;
    let len = pieces[piece].len();
    if len >= MOST_IN_PIECE {
        cut(pieces, piece, cut_place(len, index));
    }
    Ok(())
}

/// Takes the value at an index out of the pieces, and its piece where that is empty then, unless it is the only one.
fn remove_among(pieces: &mut Vec<List<Value>>, at: usize)
    requires { at < length (joined pieces.old.items) }
    ensures values { joined pieces.new.items ≡ remove (joined pieces.old.items) at }
    ensures some { 0 < length pieces.new.items }
{
    let (piece, index) = find(pieces.as_slice(), at);
    drop(pieces[piece].remove(index));
    if pieces[piece].len() == 0 && pieces.len() > 1 {
        drop(pieces.remove(piece));
    }
}

/// The same pieces in memory of their own.
fn copied_pieces(alloc: Global, pieces: &[List<Value>]) -> Result<Vec<List<Value>>, AllocError>
    ensures { IfOk result (λ v. v.items ≡ pieces.now) }
{
    let mut copy = Vec::with_capacity(alloc, pieces.len())?;
    for piece in pieces {
        copy.push(copied_values(alloc, piece.as_slice())?)?;
    }
    Ok(copy)
}

/// Puts copies of values at the end of others. The error is out of memory.
fn append(alloc: Global, found: &mut List<Value>, values: &[Value]) -> Result<(), AllocError>
    ensures { OnOk result (found.new ≡ found.old ++ values.now) }
{
    for v in values {
        found.push(v.copy(alloc)?)?;
    }
    Ok(())
}

/// The values of the pieces in one list, in memory of their own.
fn joined_list(alloc: Global, pieces: &[List<Value>]) -> Result<List<Value>, AllocError>
    ensures { IfOk result (λ l. l ≡ joined pieces.now) }
{
    let mut found = List::new(alloc);
    for piece in pieces {
        append(alloc, &mut found, piece.as_slice())?;
    }
    Ok(found)
}

/// The value at an index.
fn value_at(pieces: &[List<Value>], at: usize) -> &Value
    requires { at < length (joined pieces.now) }
    ensures { slice_get (joined pieces.now) at ≡ Some result.now }
{
    let (piece, index) = find(pieces, at);
    let values = pieces[piece].as_slice();
    &values[index]
}

/// How often each value of the pieces is there. The error is out of memory.
fn counted(alloc: Global, pieces: &[List<Value>]) -> Result<ValueCounts, AllocError>
    ensures { IfOk result (λ c. Counts c (joined pieces.now)) }
{
    let mut counts = ValueCounts::new(alloc);
    for piece in pieces {
        counts.add_all(piece.as_slice())?;
    }
    Ok(counts)
}

/// Counts the value at the index too. The error is out of memory.
fn add_at(counts: &mut ValueCounts, pieces: &[List<Value>], at: usize) -> Result<(), AllocError>
    requires at { at < length (joined pieces.now) }
    requires counts { Counts counts.old (remove (joined pieces.now) at) }
    ensures ok { OnOk result (Counts counts.new (joined pieces.now)) }
    ensures err { OnErr result (Counts counts.new (remove (joined pieces.now) at)) }
{
    counts.add(value_at(pieces, at))
}

/// Counts the value at the index no more.
fn take_at(counts: &mut ValueCounts, pieces: &[List<Value>], at: usize)
    requires at { at < length (joined pieces.now) }
    requires counts { Counts counts.old (joined pieces.now) }
    ensures { Counts counts.new (remove (joined pieces.now) at) }
{
    counts.take(value_at(pieces, at));
}

impl Pieces {
    /// The same values, in one piece of its own memory.
    pub(crate) fn of(alloc: Global, values: &[Value]) -> Result<Pieces, AllocError>
        ensures { IfOk result (λ p. p ≡ values.now) }
    {
        let mut pieces = Vec::new(alloc);
        pieces.push(copied_values(alloc, values)?)?;
        let counts = counted(alloc, pieces.as_slice())?;
        Ok(Pieces {
            pieces,
            len: values.len(),
            counts,
        })
    }

    /// How many values there are.
    pub(crate) fn len(&self) -> usize
        ensures { result ≡ length self.now }
    {
        self.len
    }

    /// The value at an index, `None` past the last.
    pub(crate) fn get(&self, at: usize) -> Option<&Value>
        ensures { option_copied result ≡ slice_get self.now at }
    {
        if at >= self.len {
            return None;
        }
        let (piece, index) = find(self.pieces.as_slice(), at);
        self.pieces[piece].get(index)
    }

    /// Whether the value is among these.
    pub(crate) fn has(&self, v: &Value) -> bool
        ensures { result ≡ list_any (value_eq v.now) self.now }
    {
        self.counts.has(v)
    }

    /// The values in one list, in memory of their own.
    pub(crate) fn list(&self, alloc: Global) -> Result<List<Value>, AllocError>
        ensures { IfOk result (λ l. l ≡ self.now) }
    {
        joined_list(alloc, self.pieces.as_slice())
    }

    /// The same values in memory of their own.
    pub(crate) fn copy(&self, alloc: Global) -> Result<Pieces, AllocError>
        ensures { IfOk result (λ p. p ≡ self.now) }
    {
        Ok(Pieces {
            pieces: copied_pieces(alloc, self.pieces.as_slice())?,
            len: self.len,
            counts: counted(alloc, self.pieces.as_slice())?,
        })
    }

    /// Puts a value in, before the one at the index or last. The error is out of memory.
    pub(crate) fn insert(&mut self, at: usize, v: Value) -> Result<(), AllocError>
        requires { at ≤ length self.old }
        ensures ok { OnOk result (self.new ≡ insert self.old at v) }
        ensures err { OnErr result (self.new ≡ self.old) }
    {
        let Some(len) = self.len.checked_add(1) else {
            return Err(AllocError);
        };
        insert_among(&mut self.pieces, at, v)?;
        if add_at(&mut self.counts, self.pieces.as_slice(), at).is_err() {
            remove_among(&mut self.pieces, at);
            return Err(AllocError);
        }
        self.len = len;
        Ok(())
    }

    /// Takes the value at an index out.
    pub(crate) fn remove(&mut self, at: usize)
        requires { at < length self.old }
        ensures { self.new ≡ remove self.old at }
    {
        take_at(&mut self.counts, self.pieces.as_slice(), at);
        remove_among(&mut self.pieces, at);
        self.len -= 1;
    }
}
