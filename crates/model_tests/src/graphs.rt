//! Both implementations of a model over the same steps: they answer the same, and show the same of all that is there.
ghost use Rattle.std.specs.Prelude.{OnOk};
ghost use Rattle.ecore_meta.specs.Sound.{Sound};
ghost use Rattle.model_state.specs.Good.{Good};
ghost use Rattle.step_apply.specs.View.{plain_state};

use crate::metamodels::metamodel;
use crate::reading::{cut, id, prefixed, step, steps};
use crate::steps::{TABLE, told};
use ecore_meta::Metamodel;
use model_graph::Graph;
use model_laws::take_in_order;
use model_state::{Change, Entry, Id, Look, Place, Step, StepFault};
use state_steps::as_steps;
use std::alloc::Global;
use std::process::Abort;
use std::test::Fail;
use step_apply::Plain;
use texts::List;

// All that a model shows of a place.
fn put_place<L: Look>(
    alloc: Global,
    text: &mut String,
    model: &L,
    place: &Place,
) -> Result<(), Fail> {
    let list = model.children(alloc, place)?;
    let count = model.child_count(place);
    let last = model.last_child(place);
    write!(text, "{:?} {count} {last:?}", list.as_slice())?;
    Ok(())
}

fn put_ranks<L: Look>(
    text: &mut String,
    model: &L,
    e: &Id,
    f: u32,
    list: &[Entry],
) -> Result<(), Fail> {
    for entry in list {
        let rank = model.row(e, f, &entry.id);
        write!(text, " {rank:?}")?;
    }
    Ok(())
}

fn put_targets<L: Look>(
    alloc: Global,
    text: &mut String,
    model: &L,
    e: &Id,
    f: u32,
) -> Result<(), Fail> {
    let list = model.targets(alloc, e, f)?;
    let last = model.last_target(e, f);
    write!(text, " {:?} {last:?}", list.as_slice())?;
    put_ranks(text, model, e, f, list.as_slice())
}

fn put_inside<L: Look>(
    alloc: Global,
    text: &mut String,
    model: &L,
    e: &Id,
    f: u32,
) -> Result<(), Fail> {
    let inside = Place::Inside {
        parent: e.copy(alloc)?,
        feature: f,
    };
    put_place(alloc, text, model, &inside)
}

// What a model shows of an attribute at an index, and whether it has the value that stands there.
fn put_value<L: Look>(text: &mut String, model: &L, e: &Id, f: u32, at: usize) -> Result<(), Fail> {
    match model.attr_at(e, f, at) {
        None => text.push_str(" none")?,
        Some(value) => {
            let is_there = model.attr_has(e, f, value);
            write!(text, " {value:?} {is_there}")?;
        }
    }
    Ok(())
}

// All that a model shows of an attribute, and of the index after its last.
fn put_values<L: Look>(
    alloc: Global,
    text: &mut String,
    model: &L,
    e: &Id,
    f: u32,
) -> Result<(), Fail> {
    let values = model.attr(alloc, e, f)?;
    let count = model.attr_len(e, f);
    write!(text, "{:?} {count}", values.as_slice())?;
    for at in 0..count {
        put_value(text, model, e, f, at)?;
    }
    put_value(text, model, e, f, count)
}

// All that a model shows of a feature of an element.
fn put_feature<L: Look>(
    alloc: Global,
    text: &mut String,
    model: &L,
    e: &Id,
    f: u32,
) -> Result<(), Fail> {
    write!(text, "\n{f}: ")?;
    put_values(alloc, text, model, e, f)?;
    text.push_str(" ")?;
    put_inside(alloc, text, model, e, f)?;
    put_targets(alloc, text, model, e, f)
}

fn put_head<L: Look>(alloc: Global, text: &mut String, model: &L, e: &Id) -> Result<(), Fail> {
    let rows = model.incoming(alloc, e)?;
    let class = model.class(e);
    let placed = model.placed(e);
    write!(
        text,
        "\n{} {class:?} {placed:?} {:?}",
        e.as_str(),
        rows.as_slice()
    )?;
    Ok(())
}

// All that a model shows of an element.
fn put_element<L: Look>(
    alloc: Global,
    meta: &Metamodel,
    text: &mut String,
    model: &L,
    e: &Id,
) -> Result<(), Fail> {
    put_head(alloc, text, model, e)?;
    for f in 0..meta.feature_count() {
        put_feature(alloc, text, model, e, f)?;
    }
    Ok(())
}

fn put_elements<L: Look>(
    alloc: Global,
    meta: &Metamodel,
    text: &mut String,
    model: &L,
    ids: &[Id],
) -> Result<(), Fail> {
    for e in ids {
        put_element(alloc, meta, text, model, e)?;
    }
    Ok(())
}

fn put_model<L: Look>(
    alloc: Global,
    meta: &Metamodel,
    text: &mut String,
    model: &L,
) -> Result<(), Fail> {
    put_place(alloc, text, model, &Place::Root)?;
    let ids = model.ids(alloc)?;
    put_elements(alloc, meta, text, model, ids.as_slice())
}

// All that a model shows.
fn shown<L: Look>(alloc: Global, meta: &Metamodel, model: &L) -> Result<String, Fail> {
    let mut text = String::new(alloc);
    put_model(alloc, meta, &mut text, model)?;
    Ok(text)
}

fn check_shown<L: Look>(
    rt: &impl Abort,
    alloc: Global,
    meta: &Metamodel,
    model: &L,
    wanted: &str,
    line: &str,
) -> Result<(), Fail> {
    let text = shown(alloc, meta, model)?;
    assert_eq!(rt; text.as_str(), wanted, "{line}");
    Ok(())
}

fn check_same<A: Look, B: Look>(
    rt: &impl Abort,
    alloc: Global,
    meta: &Metamodel,
    one: &A,
    other: &B,
    line: &str,
) -> Result<(), Fail> {
    let wanted = shown(alloc, meta, one)?;
    check_shown(rt, alloc, meta, other, wanted.as_str(), line)
}

// Takes the steps that a text describes.
fn take<M: Change>(alloc: Global, meta: &Metamodel, model: &mut M, text: &str) -> Result<(), Fail>
    requires sound { Sound meta.now }
    requires good { Good meta.now (M.state model.old) }
    ensures { OnOk result (Good meta.now (M.state model.new)) }
{
    if text.is_empty() {
        return Ok(());
    }
    let steps = steps(alloc, text)?;
    take_in_order(model, meta, steps.as_slice())?;
    Ok(())
}

// Takes the steps at the start of a table, and those that stand before a call.
fn begin<M: Change>(
    alloc: Global,
    meta: &Metamodel,
    model: &mut M,
    start: &str,
    beside: &str,
) -> Result<(), Fail>
    requires sound { Sound meta.now }
    requires good { Good meta.now (M.state model.old) }
    ensures { OnOk result (Good meta.now (M.state model.new)) }
{
    take(alloc, meta, model, start)?;
    take(alloc, meta, model, beside)
}

// Each entry of a list of a graph is found at its index, and none past the last.
fn check_children(
    rt: &impl Abort,
    alloc: Global,
    graph: &Graph,
    place: &Place,
    end: usize,
) -> Result<(), Fail> {
    let children = graph.children(alloc, place)?;
    for at in 0..end {
        let child = graph.child_at(place, at);
        assert!(rt; child == children.as_slice().get(at), "child {at}");
    }
    Ok(())
}

fn check_targets(
    rt: &impl Abort,
    alloc: Global,
    graph: &Graph,
    e: &Id,
    f: u32,
) -> Result<(), Fail> {
    let targets = graph.targets(alloc, e, f)?;
    for at in 0..4 {
        let target = graph.target_at(e, f, at);
        assert!(rt; target == targets.as_slice().get(at), "target {at}");
    }
    Ok(())
}

fn check_inside(rt: &impl Abort, alloc: Global, graph: &Graph, e: &Id, f: u32) -> Result<(), Fail> {
    let inside = Place::Inside {
        parent: e.copy(alloc)?,
        feature: f,
    };
    check_children(rt, alloc, graph, &inside, 4)
}

fn check_element(
    rt: &impl Abort,
    alloc: Global,
    meta: &Metamodel,
    graph: &Graph,
    e: &Id,
) -> Result<(), Fail> {
    for f in 0..meta.feature_count() {
        check_targets(rt, alloc, graph, e, f)?;
        check_inside(rt, alloc, graph, e, f)?;
    }
    Ok(())
}

fn check_elements(
    rt: &impl Abort,
    alloc: Global,
    meta: &Metamodel,
    graph: &Graph,
    ids: &[Id],
) -> Result<(), Fail> {
    for e in ids {
        check_element(rt, alloc, meta, graph, e)?;
    }
    Ok(())
}

fn check_lists(
    rt: &impl Abort,
    alloc: Global,
    meta: &Metamodel,
    graph: &Graph,
) -> Result<(), Fail> {
    check_children(rt, alloc, graph, &Place::Root, 8)?;
    let ids = graph.ids(alloc)?;
    check_elements(rt, alloc, meta, graph, ids.as_slice())
}

// The steps of a graph build it from the empty model.
fn check_steps(
    rt: &impl Abort,
    alloc: Global,
    meta: &Metamodel,
    graph: &Graph,
    steps: &[Step],
    line: &str,
) -> Result<(), Fail>
    requires { Sound meta.now }
{
    check_steps_from(rt, alloc, meta, graph, &mut Plain::new(alloc), steps, line)
}

// The same, where they are taken from the empty model.
fn check_steps_from(
    rt: &impl Abort,
    alloc: Global,
    meta: &Metamodel,
    graph: &Graph,
    built: &mut Plain,
    steps: &[Step],
    line: &str,
) -> Result<(), Fail>
    requires sound { Sound meta.now }
    requires good { Good meta.now (plain_state built.old) }
{
    take_in_order(built, meta, steps)?;
    check_same(rt, alloc, meta, graph, built, line)
}

fn check_built(
    rt: &impl Abort,
    alloc: Global,
    meta: &Metamodel,
    graph: &Graph,
    line: &str,
) -> Result<(), Fail>
    requires sound { Sound meta.now }
    requires good { Good meta.now graph.now }
{
    let steps = as_steps(alloc, graph, meta)?;
    check_steps(rt, alloc, meta, graph, steps.as_slice(), line)
}

fn check_answer(
    rt: &impl Abort,
    alloc: Global,
    answer: Result<(), StepFault>,
    wanted: &str,
    call: &str,
) -> Result<(), Fail> {
    let answer = told(alloc, answer)?;
    assert_eq!(rt; answer.as_str(), wanted, "{call}");
    Ok(())
}

// All steps or none: they are answered as one step is.
fn check_run(
    rt: &impl Abort,
    alloc: Global,
    meta: &Metamodel,
    graph: &mut Graph,
    call: &str,
    wanted: &str,
) -> Result<(), Fail>
    requires sound { Sound meta.now }
    requires good { Good meta.now graph.old }
{
    let steps = steps(alloc, call)?;
    match graph.apply_all(meta, steps.as_slice()) {
        Ok(()) => check_answer(rt, alloc, Ok(()), wanted, call),
        Err(stop) => check_answer(rt, alloc, Err(stop.fault), wanted, call),
    }
}

fn check_copy(
    rt: &impl Abort,
    alloc: Global,
    meta: &Metamodel,
    graph: &Graph,
    call: &str,
    wanted: &str,
) -> Result<(), Fail>
    requires sound { Sound meta.now }
    requires good { Good meta.now graph.now }
{
    let mut copy = graph.copy()?;
    check_run(rt, alloc, meta, &mut copy, call, wanted)
}

// On a copy of a graph; the graph stays.
fn check_whole(
    rt: &impl Abort,
    alloc: Global,
    meta: &Metamodel,
    graph: &Graph,
    call: &str,
    wanted: &str,
) -> Result<(), Fail>
    requires sound { Sound meta.now }
    requires good { Good meta.now graph.now }
{
    let before = shown(alloc, meta, graph)?;
    check_copy(rt, alloc, meta, graph, call, wanted)?;
    check_shown(rt, alloc, meta, graph, before.as_str(), call)
}

fn check_plain_step(
    rt: &impl Abort,
    alloc: Global,
    meta: &Metamodel,
    plain: &mut Plain,
    step: &Step,
    call: &str,
    wanted: &str,
) -> Result<(), Fail>
    requires { Good meta.now (plain_state plain.old) }
{
    check_answer(rt, alloc, plain.apply(meta, step), wanted, call)
}

fn check_graph_step(
    rt: &impl Abort,
    alloc: Global,
    meta: &Metamodel,
    graph: &mut Graph,
    step: &Step,
    call: &str,
    wanted: &str,
) -> Result<(), Fail>
    requires { Good meta.now graph.old }
{
    check_answer(rt, alloc, graph.apply(meta, step), wanted, call)
}

// Both answer a step so.
fn check_step(
    rt: &impl Abort,
    alloc: Global,
    meta: &Metamodel,
    plain: &mut Plain,
    graph: &mut Graph,
    call: &str,
    wanted: &str,
) -> Result<(), Fail>
    requires good { Good meta.now (plain_state plain.old) }
    requires as_good { Good meta.now graph.old }
{
    let step = step(alloc, call)?;
    check_step_of(rt, alloc, meta, plain, graph, &step, call, wanted)
}

fn check_step_of(
    rt: &impl Abort,
    alloc: Global,
    meta: &Metamodel,
    plain: &mut Plain,
    graph: &mut Graph,
    step: &Step,
    call: &str,
    wanted: &str,
) -> Result<(), Fail>
    requires good { Good meta.now (plain_state plain.old) }
    requires as_good { Good meta.now graph.old }
{
    check_plain_step(rt, alloc, meta, plain, step, call, wanted)?;
    check_graph_step(rt, alloc, meta, graph, step, call, wanted)
}

// Both models, after the steps before the call.
fn check_both(
    rt: &impl Abort,
    alloc: Global,
    meta: &Metamodel,
    plain: &mut Plain,
    graph: &mut Graph,
    case: &str,
) -> Result<(), Fail>
    requires sound { Sound meta.now }
    requires good { Good meta.now (plain_state plain.old) }
    requires as_good { Good meta.now graph.old }
{
    let (call, wanted) = cut(case, " -> ");
    check_built(rt, alloc, meta, graph, case)?;
    check_whole(rt, alloc, meta, graph, call, wanted)?;
    check_step(rt, alloc, meta, plain, graph, call, wanted)?;
    check_lists(rt, alloc, meta, graph)?;
    check_same(rt, alloc, meta, plain, graph, case)
}

fn check_case(
    rt: &impl Abort,
    alloc: Global,
    meta: &Metamodel,
    plain: &mut Plain,
    graph: &mut Graph,
    start: &str,
    line: &str,
) -> Result<(), Fail>
    requires sound { Sound meta.now }
    requires good { Good meta.now (plain_state plain.old) }
    requires as_good { Good meta.now graph.old }
{
    let (beside, case) = prefixed(line, " | ");
    begin(alloc, meta, plain, start, beside)?;
    begin(alloc, meta, graph, start, beside)?;
    check_both(rt, alloc, meta, plain, graph, case)
}

// A case over two empty models.
fn check_line(
    rt: &impl Abort,
    alloc: Global,
    meta: &Metamodel,
    start: &str,
    line: &str,
) -> Result<(), Fail>
    requires { Sound meta.now }
{
    let mut plain = Plain::new(alloc);
    let mut graph = Graph::new(alloc);
    check_case(rt, alloc, meta, &mut plain, &mut graph, start, line)
}

fn check_lines(
    rt: &impl Abort,
    alloc: Global,
    meta: &Metamodel,
    start: &str,
    lines: &str,
) -> Result<(), Fail>
    requires { Sound meta.now }
{
    for line in lines.lines() {
        if !line.starts_with('#') {
            check_line(rt, alloc, meta, start, line)?;
        }
    }
    Ok(())
}

#[test]
fn a_graph_takes_steps_as_plain_maps_do(rt: HostRuntime) -> Result<(), Fail> {
    let alloc = rt.alloc();
    let (head, lines) = cut(TABLE, "\n");
    let (name, start) = cut(head, "; ");
    let meta = metamodel(alloc, name)?;
    check_lines(&rt, alloc, &meta, start, lines)
}

fn put_step(alloc: Global, all: &mut List<Step>, text: &str) -> Result<(), Fail> {
    let step = step(alloc, text)?;
    all.push(step)?;
    Ok(())
}

// A book at the root, linked to a writer of its own.
fn put_book(alloc: Global, all: &mut List<Step>, k: u64) -> Result<(), Fail> {
    put_step(alloc, all, format!(in alloc; "New b{k} 1 / {k}")?.as_str())?;
    put_step(alloc, all, format!(in alloc; "New w{k} 2 / {k}")?.as_str())?;
    put_step(
        alloc,
        all,
        format!(in alloc; "Link b{k} 4 1 w{k} 1")?.as_str(),
    )
}

// A shelf, and so many books.
fn put_library(alloc: Global, all: &mut List<Step>, books: u64) -> Result<(), Fail> {
    put_step(alloc, all, "New s 3 / 1")?;
    for k in 0..books {
        put_book(alloc, all, k)?;
    }
    Ok(())
}

fn take_library(alloc: Global, meta: &Metamodel, graph: &mut Graph) -> Result<(), Fail>
    requires sound { Sound meta.now }
    requires good { Good meta.now graph.old }
{
    let mut all = List::new(alloc);
    put_library(alloc, &mut all, 20_000)?;
    take_in_order(graph, meta, all.as_slice())?;
    Ok(())
}

// A search of all references at each call doesn't end within the time of a test.
fn check_found(rt: &impl Abort, alloc: Global, graph: &Graph, shelf: &Id) -> Result<(), Fail> {
    for _ in 0..2_000_000 {
        let rows = graph.incoming(alloc, shelf)?;
        assert_eq!(rt; rows.len(), 0);
    }
    Ok(())
}

fn check_shelf(rt: &impl Abort, alloc: Global, graph: &Graph) -> Result<(), Fail> {
    let shelf = id(alloc, "s")?;
    check_found(rt, alloc, graph, &shelf)
}

fn check_library(
    rt: &impl Abort,
    alloc: Global,
    meta: &Metamodel,
    graph: &mut Graph,
) -> Result<(), Fail>
    requires sound { Sound meta.now }
    requires good { Good meta.now graph.old }
{
    take_library(alloc, meta, graph)?;
    check_shelf(rt, alloc, graph)
}

fn check_empty_graph(rt: &impl Abort, alloc: Global, meta: &Metamodel) -> Result<(), Fail>
    requires { Sound meta.now }
{
    check_library(rt, alloc, meta, &mut Graph::new(alloc))
}

#[test]
fn no_reference_to_a_shelf_is_found_at_once(rt: HostRuntime) -> Result<(), Fail> {
    let alloc = rt.alloc();
    let meta = metamodel(alloc, "library")?;
    check_empty_graph(&rt, alloc, &meta)
}
