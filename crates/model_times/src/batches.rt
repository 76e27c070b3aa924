//! Batches of steps of one kind, spread over the elements of a model.
//!
//! All elements of a model stand at the root, each at a rank of its own, and have two attributes. A fifth of them cites a
//! target. A batch has a step for each of 500 of them, and two insertions for each. Where there are more models than one,
//! these are 500 in all: each model has as many as the others, and they take turns.

use crate::fault::TimesFault;
use crate::spread::{Spread, Turn};
use ecore_meta::{Boxed, Value};
use model_state::{Id, OpKind, Place, Step};
use std::alloc::Global;
use texts::{List, Text};

/// The features of the metamodel, by their numbers.
pub const LABEL: u32 = 0;

const SIZES: u32 = 1;

pub const CITES: u32 = 2;

const NEXT: u32 = 3;

const BACK: u32 = 4;

pub const INNER: u32 = 5;

const WEIGHT: u32 = 6;

/// How far apart the first ranks of two elements are that follow one another.
const APART: u64 = 1_048_576;

/// How many elements are built at a time.
const PIECE: u64 = 1000;

/// The kinds of steps, in an order in which the batches can be taken.
#[derive(Clone, Copy, Drop)]
pub enum Batch {
    Put,
    Ins,
    Shift,
    Del,
    Link,
    RerankRow,
    Unlink,
    RerankPlace,
    Move,
    New,
    Gone,
}

/// All kinds, in their order.
pub const BATCHES: [Batch; 11] = [
    Batch::Put,
    Batch::Ins,
    Batch::Shift,
    Batch::Del,
    Batch::Link,
    Batch::RerankRow,
    Batch::Unlink,
    Batch::RerankPlace,
    Batch::Move,
    Batch::New,
    Batch::Gone,
];

impl Batch {
    /// The kind of an operation that has the batch's steps.
    pub fn kind(self) -> OpKind {
        match self {
            Batch::Put => OpKind::Attribute,
            Batch::Ins | Batch::Shift | Batch::Del => OpKind::ManyAttribute,
            Batch::Link | Batch::RerankRow | Batch::Unlink => OpKind::Reference,
            Batch::RerankPlace | Batch::Move => OpKind::Move,
            Batch::New => OpKind::Create,
            Batch::Gone => OpKind::Delete,
        }
    }

    /// The word under which the batch is told.
    pub fn word(self) -> &'static str {
        match self {
            Batch::Put => "Put",
            Batch::Ins => "Ins",
            Batch::Shift => "Shift",
            Batch::Del => "Del",
            Batch::Link => "Link",
            Batch::RerankRow => "RerankRow",
            Batch::Unlink => "Unlink",
            Batch::RerankPlace => "RerankPlace",
            Batch::Move => "Move",
            Batch::New => "New",
            Batch::Gone => "Gone",
        }
    }
}

/// The element of a number.
pub fn element(alloc: Global, number: u64) -> Result<Id, TimesFault> {
    Ok(Id::read(alloc, format!(in alloc; "n{number}")?.as_str())?)
}

/// The rank at which the element of a number stands first.
fn rank_of(number: u64) -> u64 {
    number.saturating_mul(APART).saturating_add(APART)
}

/// The creation of the element of a number, last at the root.
fn creation(alloc: Global, number: u64) -> Result<Step, TimesFault> {
    Ok(Step::New {
        e: element(alloc, number)?,
        class: 0,
        place: Place::Root,
        rank: rank_of(number),
    })
}

/// The citation of a target by the element of a number.
fn citation(alloc: Global, number: u64, target: u64) -> Result<Step, TimesFault> {
    Ok(Step::Link {
        a: element(alloc, number)?,
        f: CITES,
        ra: APART,
        b: element(alloc, target)?,
        rb: None,
    })
}

/// The label and the weight of the element of a number.
fn put_values(alloc: Global, steps: &mut List<Step>, number: u64) -> Result<(), TimesFault> {
    steps.push(Step::Put {
        e: element(alloc, number)?,
        f: LABEL,
        old: None,
        new: Some(label(alloc)?),
    })?;
    steps.push(Step::Put {
        e: element(alloc, number)?,
        f: WEIGHT,
        old: None,
        new: Some(Value::Whole(7)),
    })?;
    Ok(())
}

fn put_creations(
    alloc: Global,
    steps: &mut List<Step>,
    from: u64,
    to: u64,
) -> Result<(), TimesFault> {
    for number in from..to {
        steps.push(creation(alloc, number)?)?;
        put_values(alloc, steps, number)?;
    }
    Ok(())
}

fn put_citations(
    alloc: Global,
    steps: &mut List<Step>,
    spread: Spread,
    from: u64,
    to: u64,
) -> Result<(), TimesFault> {
    for number in from..to {
        if number % 5 == 0 {
            steps.push(citation(alloc, number, spread.target_of(number))?)?;
        }
    }
    Ok(())
}

/// How many pieces a model of so many elements is built in.
pub fn pieces(elements: u64) -> u64 {
    elements.div_ceil(PIECE)
}

/// The steps that make a piece of a model.
pub fn building(alloc: Global, spread: Spread, piece: u64) -> Result<List<Step>, TimesFault> {
    let from = piece.saturating_mul(PIECE);
    let to = from.saturating_add(PIECE).min(spread.elements);
    let mut steps = List::new(alloc);
    put_creations(alloc, &mut steps, from, to)?;
    put_citations(alloc, &mut steps, spread, from, to)?;
    Ok(steps)
}

fn label(alloc: Global) -> Result<Value, TimesFault> {
    Ok(Value::Text(Text::new(alloc, "a label")?))
}

fn text(alloc: Global) -> Result<Value, TimesFault> {
    Ok(Value::Text(Text::new(alloc, "a text")?))
}

/// The place inside a target.
fn inside(alloc: Global, target: u64) -> Result<Place, TimesFault> {
    Ok(Place::Inside {
        parent: element(alloc, target)?,
        feature: INNER,
    })
}

/// Another label for an element.
fn relabeling(alloc: Global, e: Id) -> Result<Step, TimesFault> {
    Ok(Step::Put {
        e,
        f: LABEL,
        old: Some(label(alloc)?),
        new: Some(text(alloc)?),
    })
}

/// A number put into the sizes of an element.
fn insertion(e: Id, at: u32, size: i64) -> Step {
    Step::Ins {
        e,
        f: SIZES,
        at,
        v: Value::Whole(size),
    }
}

/// The first size of an element, put after the second.
fn shift(e: Id) -> Step {
    Step::Shift {
        e,
        f: SIZES,
        from: 0,
        to: 1,
    }
}

/// The first size of an element, once it was shifted, taken out.
fn deletion(e: Id) -> Step {
    Step::Del {
        e,
        f: SIZES,
        at: 0,
        v: Value::Whole(2),
    }
}

/// A reference from an element to its target, with its mirror.
fn link(alloc: Global, a: Id, rank: u64, target: u64) -> Result<Step, TimesFault> {
    Ok(Step::Link {
        a,
        f: NEXT,
        ra: 1,
        b: element(alloc, target)?,
        rb: Some(rank),
    })
}

/// Another rank for the mirror of that reference.
fn rerank_row(alloc: Global, a: Id, rank: u64, target: u64) -> Result<Step, TimesFault> {
    Ok(Step::RerankRow {
        a: element(alloc, target)?,
        f: BACK,
        b: a,
        old: rank,
        new: rank.saturating_add(1),
    })
}

/// That reference taken out, with its mirror at its other rank.
fn unlink(alloc: Global, a: Id, rank: u64, target: u64) -> Result<Step, TimesFault> {
    Ok(Step::Unlink {
        a,
        f: NEXT,
        ra: 1,
        b: element(alloc, target)?,
        rb: Some(rank.saturating_add(1)),
    })
}

/// Another rank for an element at the root.
fn rerank_place(e: Id, rank: u64) -> Step {
    Step::RerankPlace {
        e,
        old: rank,
        new: rank.saturating_add(1),
    }
}

/// The containers of what stands inside a target: that element alone.
fn containers(alloc: Global, target: u64) -> Result<List<Id>, TimesFault> {
    let mut above = List::new(alloc);
    above.push(element(alloc, target)?)?;
    Ok(above)
}

/// The move of an element, which has another rank by now, from the root into its target.
fn move_step(alloc: Global, e: Id, rank: u64, target: u64) -> Result<Step, TimesFault> {
    let to = inside(alloc, target)?;
    let above_to = containers(alloc, target)?;
    Ok(Step::Move {
        e,
        from: Boxed::new(alloc, Place::Root)?,
        from_rank: rank.saturating_add(1),
        to: Boxed::new(alloc, to)?,
        to_rank: rank,
        above_from: Boxed::new(alloc, List::new(alloc))?,
        above_to: Boxed::new(alloc, above_to)?,
    })
}

/// The element that a batch makes in a turn, and that another deletes.
fn passing(alloc: Global, turn: u64) -> Result<Id, TimesFault> {
    Ok(Id::read(alloc, format!(in alloc; "m{turn}")?.as_str())?)
}

/// One more element at the root.
fn making(alloc: Global, turn: u64, rank: u64) -> Result<Step, TimesFault> {
    Ok(Step::New {
        e: passing(alloc, turn)?,
        class: 0,
        place: Place::Root,
        rank: rank.saturating_add(1),
    })
}

/// That element deleted.
fn unmaking(alloc: Global, turn: u64, rank: u64) -> Result<Step, TimesFault> {
    Ok(Step::Gone {
        e: passing(alloc, turn)?,
        class: 0,
        place: Place::Root,
        rank: rank.saturating_add(1),
    })
}

/// The step of a turn of a batch.
fn step_of(alloc: Global, batch: Batch, spread: Spread, turn: u64) -> Result<Step, TimesFault> {
    let number = spread.number_of(turn);
    let target = spread.target_of(number);
    let e = element(alloc, number)?;
    let rank = rank_of(number);
    match batch {
        Batch::Put => relabeling(alloc, e),
        Batch::Ins => Ok(insertion(e, 0, 1)),
        Batch::Shift => Ok(shift(e)),
        Batch::Del => Ok(deletion(e)),
        Batch::Link => link(alloc, e, rank, target),
        Batch::RerankRow => rerank_row(alloc, e, rank, target),
        Batch::Unlink => unlink(alloc, e, rank, target),
        Batch::RerankPlace => Ok(rerank_place(e, rank)),
        Batch::Move => move_step(alloc, e, rank, target),
        Batch::New => making(alloc, turn, rank),
        Batch::Gone => unmaking(alloc, turn, rank),
    }
}

/// Puts the step of a turn of a model after others, and after an insertion a second one.
fn put_step(
    alloc: Global,
    steps: &mut List<Turn<Step>>,
    batch: Batch,
    model: u32,
    spread: Spread,
    turn: u64,
) -> Result<(), TimesFault> {
    let what = step_of(alloc, batch, spread, turn)?;
    steps.push(Turn { model, what })?;
    if matches!(batch, Batch::Ins) {
        let what = insertion(element(alloc, spread.number_of(turn))?, 1, 2);
        steps.push(Turn { model, what })?;
    }
    Ok(())
}

/// Puts the steps of a turn of each model after others.
fn put_turn(
    alloc: Global,
    steps: &mut List<Turn<Step>>,
    batch: Batch,
    spread: Spread,
    turn: u64,
) -> Result<(), TimesFault> {
    for model in 0..spread.models {
        put_step(alloc, steps, batch, model, spread, turn)?;
    }
    Ok(())
}

/// The steps of a batch, in the order in which the models take them.
pub fn batch_of(
    alloc: Global,
    batch: Batch,
    spread: Spread,
) -> Result<List<Turn<Step>>, TimesFault> {
    let mut steps = List::new(alloc);
    for turn in 0..spread.turns {
        put_turn(alloc, &mut steps, batch, spread, turn)?;
    }
    Ok(steps)
}

/// The steps that the first model takes, which are those of each model.
pub fn steps_of_one(alloc: Global, steps: &[Turn<Step>]) -> Result<List<Step>, TimesFault> {
    let mut copies = List::new(alloc);
    for step in steps {
        if step.model == 0 {
            copies.push(step.what.copy(alloc)?)?;
        }
    }
    Ok(copies)
}
