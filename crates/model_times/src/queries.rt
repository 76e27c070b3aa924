//! Queries of models, each asked of the elements over which the batches are spread.

use crate::batches::{CITES, INNER, LABEL, element};
use crate::fault::TimesFault;
use crate::spread::{Spread, Turn};
use model_state::{Id, Look, Place};
use std::alloc::Global;
use texts::List;

/// The queries.
#[derive(Clone, Copy, Debug, Drop)]
pub enum Query {
    Class,
    Placed,
    Attr,
    Row,
    Targets,
    LastTarget,
    Children,
    LastChild,
    ChildCount,
    Incoming,
}

/// All queries.
pub const QUERIES: [Query; 10] = [
    Query::Class,
    Query::Placed,
    Query::Attr,
    Query::Row,
    Query::Targets,
    Query::LastTarget,
    Query::Children,
    Query::LastChild,
    Query::ChildCount,
    Query::Incoming,
];

/// Puts the element of a turn of each model after others.
fn put_turn(
    alloc: Global,
    asked: &mut List<Turn<Id>>,
    spread: Spread,
    turn: u64,
) -> Result<(), TimesFault> {
    for model in 0..spread.models {
        let what = element(alloc, spread.number_of(turn))?;
        asked.push(Turn { model, what })?;
    }
    Ok(())
}

/// The elements that are asked of, in the order in which the models are asked.
pub fn asked(alloc: Global, spread: Spread) -> Result<List<Turn<Id>>, TimesFault> {
    let mut asked = List::new(alloc);
    for turn in 0..spread.turns {
        put_turn(alloc, &mut asked, spread, turn)?;
    }
    Ok(asked)
}

fn yes(is_so: bool) -> usize {
    if is_so { 1 } else { 0 }
}

/// How many elements stand inside an element.
fn count_inside<L: Look>(alloc: Global, model: &L, e: &Id) -> Result<usize, TimesFault> {
    let place = Place::Inside {
        parent: e.copy(alloc)?,
        feature: INNER,
    };
    let list = model.children(alloc, &place)?;
    Ok(list.len())
}

/// A query of an element, and how much it found.
fn ask_one<L: Look>(alloc: Global, model: &L, query: Query, e: &Id) -> Result<usize, TimesFault> {
    match query {
        Query::Class => Ok(yes(model.class(e).is_some())),
        Query::Placed => Ok(yes(model.placed(e).is_some())),
        Query::Attr => Ok(yes(model.attr_at(e, LABEL, 0).is_some())),
        Query::Row => Ok(yes(model.row(e, CITES, e).is_some())),
        Query::LastTarget => Ok(yes(model.last_target(e, CITES).is_some())),
        Query::LastChild => Ok(yes(model.last_child(&Place::Root).is_some())),
        Query::ChildCount => Ok(model.child_count(&Place::Root)),
        Query::Targets => Ok(model.targets(alloc, e, CITES)?.len()),
        Query::Children => count_inside(alloc, model, e),
        Query::Incoming => Ok(model.incoming(alloc, e)?.len()),
    }
}

/// A query of an element of one of the models, and how much it found.
fn ask_turn<L: Look>(
    alloc: Global,
    models: &[L],
    query: Query,
    asked: &Turn<Id>,
) -> Result<usize, TimesFault> {
    match models.get(asked.model as usize) {
        Some(model) => ask_one(alloc, model, query, &asked.what),
        None => Err(TimesFault::Model),
    }
}

/// A query of each of the elements, and how much they found.
pub fn ask<L: Look>(
    alloc: Global,
    models: &[L],
    query: Query,
    asked: &[Turn<Id>],
) -> Result<usize, TimesFault> {
    let mut found: usize = 0;
    for turn in asked {
        found = found.saturating_add(ask_turn(alloc, models, query, turn)?);
    }
    Ok(found)
}
