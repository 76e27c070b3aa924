//! Counts by key, in search trees. A key that isn't counted any more is taken out.
ghost use Rattle.std.specs.Prelude.{◌≡◌, ℕ, ℤ, List, ◌<◌, ◌+◌, OnOk, OnErr, IfOk};
ghost use Rattle.std.specs.Ordering.{int_eq};
ghost use Rattle.std.specs.Prelude.{nat_eq};
ghost use Rattle.std.specs.Str.{bytes_eq};
ghost use Rattle.value_counts.specs.Counts.{text_count, whole_count, literal_count, once};

use std::alloc::{AllocError, Global};
use std::collections::BTreeMap;

/// One more than the count. The error is that there is no such number.
pub(crate) fn one_more(count: u64) -> Result<u64, AllocError>
    ensures { IfOk result (λ n. n ≡ count + 1) }
{
    match count.checked_add(1) {
        None => Err(AllocError),
        Some(more) => Ok(more),
    }
}

/// How often the text is counted.
pub(crate) fn text_count(tree: &BTreeMap<String, u64>, text: &str) -> u64
    ensures { result ≡ text_count tree.now text.now }
{
    match tree.get(text) {
        None => 0,
        Some(count) => *count,
    }
}

/// Counts the text once more. The error is out of memory.
pub(crate) fn add_text(
    alloc: Global,
    tree: &mut BTreeMap<String, u64>,
    text: &str,
) -> Result<(), AllocError>
    ensures ok { OnOk result ((q : List ℕ) → text_count tree.new q ≡ text_count tree.old q + once (bytes_eq q text.now)) }
    ensures err { OnErr result ((q : List ℕ) → text_count tree.new q ≡ text_count tree.old q) }
{
    let more = one_more(text_count(tree, text))?;
    let key = String::from_str(alloc, text)?;
    tree.insert(key, more)?;
    Ok(())
}

/// Counts the text once less. This takes no memory.
pub(crate) fn take_text(tree: &mut BTreeMap<String, u64>, text: &str)
    requires { 0 < text_count tree.old text.now }
    ensures { (q : List ℕ) → text_count tree.old q ≡ text_count tree.new q + once (bytes_eq q text.now) }
{
    let count = text_count(tree, text);
    if count == 1 {
        tree.remove(text);
    } else if let Some(here) = tree.get_mut(text) {
        *here = count - 1;
    }
}

/// How often the whole number is counted.
pub(crate) fn whole_count(tree: &BTreeMap<i64, u64>, whole: &i64) -> u64
    ensures { result ≡ whole_count tree.now whole.now }
{
    match tree.get(whole) {
        None => 0,
        Some(count) => *count,
    }
}

/// Counts the whole number once more. The error is out of memory.
pub(crate) fn add_whole(tree: &mut BTreeMap<i64, u64>, whole: &i64) -> Result<(), AllocError>
    ensures ok { OnOk result ((q : ℤ) → whole_count tree.new q ≡ whole_count tree.old q + once (int_eq q whole.now)) }
    ensures err { OnErr result ((q : ℤ) → whole_count tree.new q ≡ whole_count tree.old q) }
{
    let more = one_more(whole_count(tree, whole))?;
    tree.insert(*whole, more)?;
    Ok(())
}

/// Counts the whole number once less. This takes no memory.
pub(crate) fn take_whole(tree: &mut BTreeMap<i64, u64>, whole: &i64)
    requires { 0 < whole_count tree.old whole.now }
    ensures { (q : ℤ) → whole_count tree.old q ≡ whole_count tree.new q + once (int_eq q whole.now) }
{
    let count = whole_count(tree, whole);
    if count == 1 {
        tree.remove(whole);
    } else if let Some(here) = tree.get_mut(whole) {
        *here = count - 1;
    }
}

/// How often the literal of the number is counted.
pub(crate) fn literal_count(tree: &BTreeMap<u32, u64>, number: u32) -> u64
    ensures { result ≡ literal_count tree.now number }
{
    match tree.get(&number) {
        None => 0,
        Some(count) => *count,
    }
}

/// Counts the literal of the number once more. The error is out of memory.
pub(crate) fn add_literal(tree: &mut BTreeMap<u32, u64>, number: u32) -> Result<(), AllocError>
    ensures ok { OnOk result ((q : ℕ) → literal_count tree.new q ≡ literal_count tree.old q + once (nat_eq q number)) }
    ensures err { OnErr result ((q : ℕ) → literal_count tree.new q ≡ literal_count tree.old q) }
{
    let more = one_more(literal_count(tree, number))?;
    tree.insert(number, more)?;
    Ok(())
}

/// Counts the literal of the number once less. This takes no memory.
pub(crate) fn take_literal(tree: &mut BTreeMap<u32, u64>, number: u32)
    requires { 0 < literal_count tree.old number }
    ensures { (q : ℕ) → literal_count tree.old q ≡ literal_count tree.new q + once (nat_eq q number) }
{
    let count = literal_count(tree, number);
    if count == 1 {
        tree.remove(&number);
    } else if let Some(here) = tree.get_mut(&number) {
        *here = count - 1;
    }
}
