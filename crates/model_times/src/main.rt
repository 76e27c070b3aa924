//! Times the steps and the queries of a model, over ordered maps or over elements in slots. It does so three times over
//! the same elements. The first time finds them untouched since the model was built. There may be several such models
//! side by side, which take turns: so many small models have the memory of a large one. Or it times how a metamodel is read
//! and evolves.
#![tactic(auto)]

mod batches;
mod fault;
mod growth;
mod queries;
mod spread;

ghost use Rattle.std.specs.Prelude.{IfOk, OnOk};
ghost use Rattle.ecore_meta.specs.Sound.{Sound};
ghost use Rattle.model_times.specs.Models.{AreGood};

use anyhow::Result;
use batches::{BATCHES, Batch, batch_of, building, pieces, steps_of_one};
use ecore_meta::{CompactList, Metamodel};
use fault::TimesFault;
use growth::{measure_growth, read};
use model_graph::Graph;
use model_laws::take_in_order;
use model_state::{Change, Id, Look, Operation, Package, Step};
use queries::{QUERIES, Query, ask, asked};
use reversals::reverse;
use spread::{Spread, Turn};
use std::alloc::Global;
use std::time::{Duration, Instant};
use std::{env, slice};
use step_apply::Plain;
use texts::List;

/// How many elements a model has at least, so that each step of a batch has one of its own.
const LEAST: u32 = 1000;

/// How often each batch is taken and each query asked.
const ROUNDS: u32 = 3;

/// One class: a text, whole numbers, references without and with an opposite, a containment, and a whole number.
const METAMODEL: &str =
    r#"{"eClass":"http://www.eclipse.org/emf/2002/Ecore#//EPackage","name":"t","nsURI":"t","eClassifiers":[
{"eClass":"http://www.eclipse.org/emf/2002/Ecore#//EClass","name":"Node","eStructuralFeatures":[
{"eClass":"http://www.eclipse.org/emf/2002/Ecore#//EAttribute","name":"label","eType":{"$ref":"http://www.eclipse.org/emf/2002/Ecore#//EString"}},
{"eClass":"http://www.eclipse.org/emf/2002/Ecore#//EAttribute","name":"sizes","upperBound":-1,"unique":false,"eType":{"$ref":"http://www.eclipse.org/emf/2002/Ecore#//EInt"}},
{"eClass":"http://www.eclipse.org/emf/2002/Ecore#//EReference","name":"cites","upperBound":-1,"eType":{"$ref":"//Node"}},
{"eClass":"http://www.eclipse.org/emf/2002/Ecore#//EReference","name":"next","upperBound":-1,"eType":{"$ref":"//Node"},"eOpposite":{"$ref":"//Node/back"}},
{"eClass":"http://www.eclipse.org/emf/2002/Ecore#//EReference","name":"back","upperBound":-1,"eType":{"$ref":"//Node"},"eOpposite":{"$ref":"//Node/next"}},
{"eClass":"http://www.eclipse.org/emf/2002/Ecore#//EReference","name":"inner","upperBound":-1,"containment":true,"eType":{"$ref":"//Node"}},
{"eClass":"http://www.eclipse.org/emf/2002/Ecore#//EAttribute","name":"weight","eType":{"$ref":"http://www.eclipse.org/emf/2002/Ecore#//EInt"}}]}
]}"#;

fn metamodel(alloc: Global) -> Result<Metamodel, TimesFault>
    ensures { IfOk result Sound }
{
    read(alloc, METAMODEL)
}

fn print_time(rt: &HostRuntime, is_timed: bool, taken: Duration) -> Result<()> {
    if is_timed {
        let taken = taken.as_micros();
        println!(rt; "{taken} us")?;
    }
    Ok(())
}

/// The model of a number takes all the steps.
fn take<M: Change>(
    meta: &Metamodel,
    models: &mut Vec<M>,
    model: u32,
    steps: &[Step],
) -> Result<(), TimesFault>
    requires sound { Sound meta.now }
    requires good { AreGood meta.now M.state models.old.items }
    ensures { OnOk result (AreGood meta.now M.state models.new.items) }
{
    let Some(model) = models.get_mut(model as usize) else {
        return Err(TimesFault::Model);
    };
    match take_in_order(model, meta, steps) {
        Ok(()) => Ok(()),
        Err(_) => Err(TimesFault::Step),
    }
}

/// Each model takes its steps, in the order of the turns.
fn take_turns<M: Change>(
    meta: &Metamodel,
    models: &mut Vec<M>,
    turns: &[Turn<Step>],
) -> Result<(), TimesFault>
    requires sound { Sound meta.now }
    requires good { AreGood meta.now M.state models.old.items }
    ensures { OnOk result (AreGood meta.now M.state models.new.items) }
{
    for turn in turns {
        take(meta, models, turn.model, slice::from_ref(&turn.what))?;
    }
    Ok(())
}

/// Builds the model of a number, piece by piece.
fn build<M: Change>(
    alloc: Global,
    meta: &Metamodel,
    models: &mut Vec<M>,
    model: u32,
    spread: Spread,
) -> Result<(), TimesFault>
    requires sound { Sound meta.now }
    requires good { AreGood meta.now M.state models.old.items }
    ensures { OnOk result (AreGood meta.now M.state models.new.items) }
{
    for piece in 0..pieces(spread.elements) {
        let steps = building(alloc, spread, piece)?;
        take(meta, models, model, steps.as_slice())?;
    }
    Ok(())
}

/// Builds each model.
fn build_all<M: Change>(
    alloc: Global,
    meta: &Metamodel,
    models: &mut Vec<M>,
    spread: Spread,
) -> Result<(), TimesFault>
    requires sound { Sound meta.now }
    requires good { AreGood meta.now M.state models.old.items }
    ensures { OnOk result (AreGood meta.now M.state models.new.items) }
{
    for model in 0..spread.models {
        build(alloc, meta, models, model, spread)?;
    }
    Ok(())
}

fn measure_building<M: Change>(
    rt: &HostRuntime,
    is_timed: bool,
    meta: &Metamodel,
    models: &mut Vec<M>,
    spread: Spread,
) -> Result<()>
    requires sound { Sound meta.now }
    requires good { AreGood meta.now M.state models.old.items }
    ensures { OnOk result (AreGood meta.now M.state models.new.items) }
{
    let start = Instant::now(rt)?;
    build_all(rt.alloc(), meta, models, spread)?;
    let taken = start.elapsed(rt)?;
    println!(rt; "build: {}", spread.all_elements())?;
    print_time(rt, is_timed, taken)
}

/// Takes a batch, and gives the operation that the steps of each model are.
fn measure_batch<M: Change>(
    rt: &HostRuntime,
    is_timed: bool,
    meta: &Metamodel,
    models: &mut Vec<M>,
    batch: Batch,
    spread: Spread,
) -> Result<Operation>
    requires sound { Sound meta.now }
    requires good { AreGood meta.now M.state models.old.items }
    ensures { OnOk result (AreGood meta.now M.state models.new.items) }
{
    let turns = batch_of(rt.alloc(), batch, spread)?;
    let start = Instant::now(rt)?;
    take_turns(meta, models, turns.as_slice())?;
    let taken = start.elapsed(rt)?;
    println!(rt; "{}: {}", batch.word(), turns.len())?;
    print_time(rt, is_timed, taken)?;
    let kind = batch.kind();
    let steps = CompactList::from_list(steps_of_one(rt.alloc(), turns.as_slice())?);
    Ok(Operation::Simple { kind, steps })
}

/// Takes each batch, and gives the operations that they are for each model.
fn measure_batches<M: Change>(
    rt: &HostRuntime,
    is_timed: bool,
    meta: &Metamodel,
    models: &mut Vec<M>,
    spread: Spread,
) -> Result<Package>
    requires sound { Sound meta.now }
    requires good { AreGood meta.now M.state models.old.items }
    ensures { OnOk result (AreGood meta.now M.state models.new.items) }
{
    let mut done = List::new(rt.alloc());
    for batch in BATCHES {
        done.push(measure_batch(rt, is_timed, meta, models, batch, spread)?)?;
    }
    Ok(done)
}

/// The model of a number takes the steps of operations one by one.
fn take_all<M: Change>(
    meta: &Metamodel,
    models: &mut Vec<M>,
    model: u32,
    package: &Package,
) -> Result<(), TimesFault>
    requires sound { Sound meta.now }
    requires good { AreGood meta.now M.state models.old.items }
    ensures { OnOk result (AreGood meta.now M.state models.new.items) }
{
    for operation in package.as_slice() {
        take(meta, models, model, operation.steps())?;
    }
    Ok(())
}

/// Undoes in each model what was done in each.
fn undo<M: Change>(
    alloc: Global,
    meta: &Metamodel,
    models: &mut Vec<M>,
    spread: Spread,
    done: &Package,
) -> Result<(), TimesFault>
    requires sound { Sound meta.now }
    requires good { AreGood meta.now M.state models.old.items }
    ensures { OnOk result (AreGood meta.now M.state models.new.items) }
{
    let reversals = reverse(alloc, done)?;
    for model in 0..spread.models {
        take_all(meta, models, model, &reversals)?;
    }
    Ok(())
}

fn measure_query<L: Look>(
    rt: &HostRuntime,
    is_timed: bool,
    models: &[L],
    query: Query,
    asked: &[Turn<Id>],
) -> Result<()> {
    let start = Instant::now(rt)?;
    let found = ask(rt.alloc(), models, query, asked)?;
    let taken = start.elapsed(rt)?;
    println!(rt; "{query:?}: {}, {found} found", asked.len())?;
    print_time(rt, is_timed, taken)
}

fn measure_queries<L: Look>(
    rt: &HostRuntime,
    is_timed: bool,
    models: &[L],
    asked: &[Turn<Id>],
) -> Result<()> {
    for query in QUERIES {
        measure_query(rt, is_timed, models, query, asked)?;
    }
    Ok(())
}

/// Takes each batch, asks each query, and undoes what the batches did.
fn measure_round<M: Change>(
    rt: &HostRuntime,
    is_timed: bool,
    meta: &Metamodel,
    models: &mut Vec<M>,
    spread: Spread,
    asked: &[Turn<Id>],
) -> Result<()>
    requires sound { Sound meta.now }
    requires good { AreGood meta.now M.state models.old.items }
    ensures { OnOk result (AreGood meta.now M.state models.new.items) }
{
    let done = measure_batches(rt, is_timed, meta, models, spread)?;
    measure_queries(rt, is_timed, models.as_slice(), asked)?;
    undo(rt.alloc(), meta, models, spread, &done)?;
    Ok(())
}

/// Builds the models, and measures each round.
fn measure<M: Change>(
    rt: &HostRuntime,
    is_timed: bool,
    meta: &Metamodel,
    models: &mut Vec<M>,
    spread: Spread,
) -> Result<()>
    requires sound { Sound meta.now }
    requires good { AreGood meta.now M.state models.old.items }
{
    measure_building(rt, is_timed, meta, models, spread)?;
    let asked = asked(rt.alloc(), spread)?;
    for _ in 0..ROUNDS {
        measure_round(rt, is_timed, meta, models, spread, asked.as_slice())?;
    }
    Ok(())
}

fn measure_plain(rt: &HostRuntime, is_timed: bool, meta: &Metamodel, spread: Spread) -> Result<()>
    requires { Sound meta.now }
{
    let mut models = List::new(rt.alloc());
    for _ in 0..spread.models {
        models.push(Plain::new(rt.alloc()))?;
    }
    measure(rt, is_timed, meta, &mut models.into_vec(), spread)
}

fn measure_graph(rt: &HostRuntime, is_timed: bool, meta: &Metamodel, spread: Spread) -> Result<()>
    requires { Sound meta.now }
{
    let mut models = List::new(rt.alloc());
    for _ in 0..spread.models {
        models.push(Graph::new(rt.alloc()))?;
    }
    measure(rt, is_timed, meta, &mut models.into_vec(), spread)
}

/// How many models the words after the number of elements ask for, where they say it.
fn models_of(rest: &[String]) -> Result<Option<u32>, TimesFault> {
    let [_, models, ..] = rest else {
        return Ok(None);
    };
    match models.as_str().parse::<u32>() {
        Ok(models) => Ok(Some(models)),
        Err(_) => Err(TimesFault::Usage),
    }
}

/// How the words say that steps and queries are spread.
fn spread_of(elements: &String, rest: &[String]) -> Result<Spread, TimesFault> {
    let Ok(elements) = elements.as_str().parse::<u32>() else {
        return Err(TimesFault::Usage);
    };
    if elements < LEAST {
        return Err(TimesFault::Usage);
    }
    match Spread::new(elements, models_of(rest)?) {
        Some(spread) => Ok(spread),
        None => Err(TimesFault::Usage),
    }
}

/// Measures the steps and queries of models of so many elements.
fn measure_kind(rt: &HostRuntime, kind: &str, elements: &String, rest: &[String]) -> Result<()> {
    let spread = spread_of(elements, rest)?;
    let meta = metamodel(rt.alloc())?;
    let is_timed = !rest.is_empty();
    match kind {
        "plain" => measure_plain(rt, is_timed, &meta, spread),
        "graph" => measure_graph(rt, is_timed, &meta, spread),
        _ => Err(TimesFault::Usage.into()),
    }
}

/// Measures what the words after the program's name say.
fn run(rt: &HostRuntime, words: &[String]) -> Result<()> {
    let [kind, second, rest @ ..] = words else {
        return Err(TimesFault::Usage.into());
    };
    match (kind.as_str(), rest) {
        ("growth", [next]) => measure_growth(rt, second.as_str(), next.as_str()),
        _ => measure_kind(rt, kind.as_str(), second, rest),
    }
}

fn main(rt: HostRuntime) -> Result<()> {
    let words: Vec<String> = env::args(&rt)?.skip(1).collect(rt.alloc())?;
    run(&rt, words.as_slice())
}
