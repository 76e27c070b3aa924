//! The rules, one at a time, as the operations are added.
ghost use Rattle.std.specs.Prelude.{◌≡◌, ◌<◌, ◌≤◌, ◌+◌, ◌++◌, ◌∷◌, [], IfOk, OnOk, IfSome, length, MatchOption};
ghost use Rattle.footprint.specs.Prints.{shown, printed};
ghost use Rattle.cell_index.specs.Standing.{ListsStanding};
ghost use Rattle.merge_laws.specs.Rules.{Settles};
ghost use Rattle.canoniser.specs.Meetings.{standing_of, stands_out, ops_out, place_left, Calm, Ready, Leads};

use crate::search::{Found, nearest};
use cell_index::Standing;
use ecore_meta::Metamodel;
use footprint::Print;
use model_state::Operation;
use std::alloc::{AllocError, Global};

/// Takes a rule, and gives the position of what it leaves.
fn take_out(
    list: &mut Vec<Operation>,
    standing: &mut Standing,
    prints: &[Print],
    found: Found,
    at: usize,
) -> Option<usize>
    requires keeps { ListsStanding standing.old prints.now }
    requires low { found.at < at }
    requires high { at < length standing.old.stands.items }
    requires within { at < length list.old.items }
    ensures keeps { ListsStanding standing.new prints.now }
    ensures stands { standing.new.stands.items ≡ stands_out standing.old.stands.items found.at at found.left }
    ensures list { list.new.items ≡ ops_out list.old.items found.at found.left }
    ensures place { result ≡ place_left found.at found.left }
{
    let Found { at: place, left } = found;
    standing.remove(prints, at);
    match left {
        None => {
            standing.remove(prints, place);
            None
        }
        // It has the cells of the operation whose position it takes.
        Some(op) => {
            list[place] = op;
            Some(place)
        }
    }
}

/// Takes the rule that applies to the operation of the position and an earlier one, if one does. Where it leaves one operation for
/// both, gives its position: a rule may apply to that one again, and to no other.
fn turn(
    alloc: Global,
    meta: &Metamodel,
    list: &mut Vec<Operation>,
    standing: &mut Standing,
    prints: &[Print],
    at: usize,
) -> Result<Option<usize>, AllocError>
    requires keeps { ListsStanding standing.old prints.now }
    requires printed { shown prints.now ≡ printed meta.now list.old.items }
    requires ready { Ready meta.now standing.old.stands.items list.old.items at }
    ensures keeps { OnOk result (ListsStanding standing.new prints.now) }
    ensures printed { OnOk result (shown prints.now ≡ printed meta.now list.new.items) }
    ensures leads { OnOk result (Leads meta.now (standing_of standing.old.stands.items list.old.items) (standing_of standing.new.stands.items list.new.items)) }
    ensures turned { IfOk result (λ r. MatchOption r (Calm meta.now standing.new.stands.items list.new.items) (λ i. Ready meta.now standing.new.stands.items list.new.items i)) }
    ensures lower { IfOk result (λ r. IfSome r (λ i. i < at)) }
    ensures many { OnOk result (length standing.new.stands.items ≡ length standing.old.stands.items) }
    ensures size { OnOk result (length list.new.items ≡ length list.old.items) }
{
    // Only the contract needs it.
    let _meta = meta;
    match nearest(alloc, list, standing, prints, at)? {
        None => Ok(None),
        Some(found) => {
            let place = take_out(list, standing, prints, found, at);
            Ok(place)
        }
    }
}

/// The next operation is added, and rules are taken until none applies to those that stand.
fn enter(
    alloc: Global,
    meta: &Metamodel,
    list: &mut Vec<Operation>,
    standing: &mut Standing,
    prints: &[Print],
) -> Result<(), AllocError>
    requires more { length standing.old.stands.items < length list.old.items }
    requires keeps { ListsStanding standing.old prints.now }
    requires printed { shown prints.now ≡ printed meta.now list.old.items }
    requires calm { Calm meta.now standing.old.stands.items list.old.items }
    ensures keeps { OnOk result (ListsStanding standing.new prints.now) }
    ensures printed { OnOk result (shown prints.now ≡ printed meta.now list.new.items) }
    ensures leads { OnOk result (Leads meta.now (standing_of standing.old.stands.items list.old.items) (standing_of standing.new.stands.items list.new.items)) }
    ensures calm { OnOk result (Calm meta.now standing.new.stands.items list.new.items) }
    ensures many { OnOk result (length standing.new.stands.items ≡ length standing.old.stands.items + 1) }
    ensures size { OnOk result (length list.new.items ≡ length list.old.items) }
{
    let mut at = standing.stands().len();
    standing.put(prints)?;
    while let Some(place) = turn(alloc, meta, list, standing, prints, at)? {
        at = place;
    }
    Ok(())
}

/// Takes rules until none applies, and says which operations stand then.
pub(crate) fn settle(
    alloc: Global,
    meta: &Metamodel,
    list: &mut Vec<Operation>,
    prints: &[Print],
) -> Result<Standing, AllocError>
    requires printed { shown prints.now ≡ printed meta.now list.old.items }
    ensures settles { IfOk result (λ s. Settles meta.now list.old.items (standing_of s.stands.items list.new.items)) }
    ensures many { IfOk result (λ s. length s.stands.items ≡ length list.new.items) }
{
    let mut standing = Standing::new(alloc, prints)?;
    for _ in 0..list.len() {
        enter(alloc, meta, list, &mut standing, prints)?;
    }
    Ok(standing)
}

/// Puts the operation after the others, if it is kept.
fn put_kept(list: &mut Vec<Operation>, op: Operation, is_kept: bool) -> Result<(), AllocError>
    ensures { OnOk result (list.new.items ≡ list.old.items ++ standing_of (is_kept ∷ []) (op ∷ [])) }
{
    if is_kept {
        list.push(op)?;
    }
    Ok(())
}

/// The operations that stand.
pub(crate) fn keep(
    alloc: Global,
    list: Vec<Operation>,
    stands: &[bool],
) -> Result<Vec<Operation>, AllocError>
    requires many { length stands.now ≡ length list.items }
    ensures { IfOk result (λ v. v.items ≡ standing_of stands.now list.items) }
{
    let mut list = list;
    let mut turned = Vec::new(alloc);
    while let Some(op) = list.pop() {
        put_kept(&mut turned, op, stands[list.len()])?;
    }
    turned.reverse();
    Ok(turned)
}
