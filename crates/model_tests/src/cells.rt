//! Two operations in the other order, which no command asks for. Each line has the steps that a model takes beforehand, and then the two, with ` & `
//! between them.
ghost use Rattle.std.specs.Prelude.{◌≡◌, [], ◌∷◌, false, Some, IfOk};
ghost use Rattle.model_state.specs.State.{State, nothing};
ghost use Rattle.model_state.specs.Steps.{fold};
ghost use Rattle.model_state.specs.Packages.{fold_package};
ghost use Rattle.model_state.specs.Good.{Good, Sound};
ghost use Rattle.step_apply.specs.View.{plain_state};
ghost use Rattle.footprint.specs.Interference.{interferes};

use crate::metamodels::metamodel;
use crate::reading::{cut, operation, steps};
use ecore_meta::Metamodel;
use emfjson_text::write_model;
use footprint::{exchange, interferes, print_of};
use model_laws::take_in_order;
use model_state::{Operation, Step};
use std::alloc::Global;
use std::process::Abort;
use std::test::Fail;
use step_apply::Plain;

const TABLE: &str = r#"New l 0 / 5 & New k 1 l.0 5 & New m 1 l.0 5 -> the same model
New b 1 / 5; New w 2 / 6 & Link b 4 5 w 5 & both: Put b 1 - "Emma"; Put w 8 - "Jane" -> the same model
New l 0 / 5 & New k 1 l.0 5 & Put k 1 - "Emma" -> they interfere"#;

// Whether the two interfere.
fn clash(
    alloc: Global,
    meta: &Metamodel,
    first: &Operation,
    second: &Operation,
) -> Result<bool, Fail>
    ensures { IfOk result (λ b. b ≡ interferes meta.now first.now second.now) }
{
    let a = print_of(alloc, first, meta)?;
    let b = print_of(alloc, second, meta)?;
    Ok(interferes(&a, &b))
}

// The model that the steps make of the empty one.
fn model_of(alloc: Global, meta: &Metamodel, steps: &[Step]) -> Result<Plain, Fail>
    requires { Sound meta.now }
    ensures good { IfOk result (λ p. Good meta.now (plain_state p)) }
    ensures run { IfOk result (λ p. fold meta.now nothing steps.now ≡ Some (plain_state p)) }
{
    let mut plain = Plain::new(alloc);
    take_in_order(&mut plain, meta, steps)?;
    Ok(plain)
}

// Whether two models have the same text.
fn has_same_text(alloc: Global, meta: &Metamodel, one: &Plain, other: &Plain) -> Result<bool, Fail>
    requires one { Good meta.now (plain_state one.now) }
    requires other { Good meta.now (plain_state other.now) }
{
    let one = write_model(alloc, one, meta)?;
    let other = write_model(alloc, other, meta)?;
    Ok(one == other)
}

// Whether the steps and then the second operation before the first leave that model.
fn is_left_exchanged(
    alloc: Global,
    meta: &Metamodel,
    in_order: &Plain,
    start: &[Step],
    first: &Operation,
    second: &Operation,
) -> Result<bool, Fail>
    requires sound { Sound meta.now }
    requires good { Good meta.now (plain_state in_order.now) }
    requires apart { interferes meta.now first.now second.now ≡ false }
    requires possible { (m : State) → fold meta.now nothing start.now ≡ Some m → (n : State) × (fold_package meta.now m (first.now ∷ second.now ∷ []) ≡ Some n) }
{
    let mut exchanged = model_of(alloc, meta, start)?;
    is_left_after(alloc, meta, in_order, &mut exchanged, first, second)
}

// Whether the second operation before the first leaves that model.
fn is_left_after(
    alloc: Global,
    meta: &Metamodel,
    in_order: &Plain,
    exchanged: &mut Plain,
    first: &Operation,
    second: &Operation,
) -> Result<bool, Fail>
    requires sound { Sound meta.now }
    requires good { Good meta.now (plain_state in_order.now) }
    requires as_good { Good meta.now (plain_state exchanged.old) }
    requires apart { interferes meta.now first.now second.now ≡ false }
    requires possible { (n : State) × (fold_package meta.now (plain_state exchanged.old) (first.now ∷ second.now ∷ []) ≡ Some n) }
{
    exchange(exchanged, meta, first, second)?;
    has_same_text(alloc, meta, exchanged, in_order)
}

// Whether two operations that can be applied after the steps leave the same model in either order.
fn is_same(
    alloc: Global,
    meta: &Metamodel,
    start: &[Step],
    first: &Operation,
    second: &Operation,
) -> Result<bool, Fail>
    requires sound { Sound meta.now }
    requires apart { interferes meta.now first.now second.now ≡ false }
{
    let mut in_order = model_of(alloc, meta, start)?;
    is_same_after(alloc, meta, &mut in_order, start, first, second)
}

// The same, where the steps lead to that model.
fn is_same_after(
    alloc: Global,
    meta: &Metamodel,
    in_order: &mut Plain,
    start: &[Step],
    first: &Operation,
    second: &Operation,
) -> Result<bool, Fail>
    requires sound { Sound meta.now }
    requires good { Good meta.now (plain_state in_order.old) }
    requires run { fold meta.now nothing start.now ≡ Some (plain_state in_order.old) }
    requires apart { interferes meta.now first.now second.now ≡ false }
{
    take_in_order(in_order, meta, first.steps())?;
    take_in_order(in_order, meta, second.steps())?;
    is_left_exchanged(alloc, meta, in_order, start, first, second)
}

// What becomes of the exchange of two operations after the steps.
fn outcome(
    alloc: Global,
    meta: &Metamodel,
    start: &[Step],
    first: &Operation,
    second: &Operation,
) -> Result<&'static str, Fail>
    requires { Sound meta.now }
{
    if clash(alloc, meta, first, second)? {
        return Ok("they interfere");
    }
    Ok(if is_same(alloc, meta, start, first, second)? {
        "the same model"
    } else {
        "another model"
    })
}

fn exchanged_after(
    alloc: Global,
    meta: &Metamodel,
    start: &[Step],
    text: &str,
) -> Result<&'static str, Fail>
    requires { Sound meta.now }
{
    let (first, second) = cut(text, " & ");
    let first = operation(alloc, first)?;
    exchanged_with(alloc, meta, start, &first, second)
}

fn exchanged_with(
    alloc: Global,
    meta: &Metamodel,
    start: &[Step],
    first: &Operation,
    text: &str,
) -> Result<&'static str, Fail>
    requires { Sound meta.now }
{
    let second = operation(alloc, text)?;
    outcome(alloc, meta, start, first, &second)
}

fn exchanged(alloc: Global, meta: &Metamodel, text: &str) -> Result<&'static str, Fail>
    requires { Sound meta.now }
{
    let (start, rest) = cut(text, " & ");
    let start = steps(alloc, start)?;
    exchanged_after(alloc, meta, start.as_slice(), rest)
}

fn check_line(rt: &impl Abort, alloc: Global, meta: &Metamodel, line: &str) -> Result<(), Fail>
    requires { Sound meta.now }
{
    let (case, wanted) = cut(line, " -> ");
    let found = exchanged(alloc, meta, case)?;
    assert_eq!(rt; found, wanted, "{line}");
    Ok(())
}

fn check_all(rt: &impl Abort, alloc: Global, meta: &Metamodel) -> Result<(), Fail>
    requires { Sound meta.now }
{
    for line in TABLE.lines() {
        check_line(rt, alloc, meta, line)?;
    }
    Ok(())
}

#[test]
fn operations_apart_are_exchanged(rt: HostRuntime) -> Result<(), Fail> {
    let meta = metamodel(rt.alloc(), "library")?;
    check_all(&rt, rt.alloc(), &meta)
}
