//! Whether steps take each other back.
ghost use Rattle.std.specs.Prelude.{◌≡◌};
ghost use Rattle.finite_maps.specs.Equal.{list_eq, text_eq};
ghost use Rattle.model_state.specs.declared.step.Step.TheVariants.{Put, Ins, Del, Shift, Link, Unlink, RerankRow, New, Gone, Move, RerankPlace};
ghost use Rattle.model_state.specs.Steps.{rev, rev_all};
ghost use Rattle.merge_laws.specs.Joins.{step_eq, steps_eq};
ghost use Rattle.merge_laws.specs.Rules.{takes_back};

use ecore_meta::Value;
use model_state::{Id, Operation, Place, Step, is_same_option, is_same_value};
use texts::List;

fn are_same_ids(xs: &List<Id>, ys: &List<Id>) -> bool
    ensures { result ≡ list_eq text_eq xs.now ys.now }
{
    xs.as_slice() == ys.as_slice()
}

/// Whether a step's reversal sets the attribute from one entry to the other.
fn undoes_put(e: &Id, f: u32, old: &Option<Value>, new: &Option<Value>, t: &Step) -> bool
    ensures { result ≡ step_eq (Put e.now f old.now new.now) (rev t.now) }
{
    match t {
        Step::Put {
            e: x,
            f: g,
            old: was,
            new: is,
        } => e == x && f == *g && is_same_option(old, is) && is_same_option(new, was),
        _ => false,
    }
}

/// Whether a step's reversal inserts the value there.
fn undoes_ins(e: &Id, f: u32, at: u32, v: &Value, t: &Step) -> bool
    ensures { result ≡ step_eq (Ins e.now f at v.now) (rev t.now) }
{
    match t {
        Step::Del {
            e: x,
            f: g,
            at: place,
            v: w,
        } => e == x && f == *g && at == *place && is_same_value(v, w),
        _ => false,
    }
}

/// Whether a step's reversal takes the value away from there.
fn undoes_del(e: &Id, f: u32, at: u32, v: &Value, t: &Step) -> bool
    ensures { result ≡ step_eq (Del e.now f at v.now) (rev t.now) }
{
    match t {
        Step::Ins {
            e: x,
            f: g,
            at: place,
            v: w,
        } => e == x && f == *g && at == *place && is_same_value(v, w),
        _ => false,
    }
}

/// Whether a step's reversal moves the value from one index to the other.
fn undoes_shift(e: &Id, f: u32, from: u32, to: u32, t: &Step) -> bool
    ensures { result ≡ step_eq (Shift e.now f from to) (rev t.now) }
{
    match t {
        Step::Shift {
            e: x,
            f: g,
            from: back,
            to: forth,
        } => e == x && f == *g && from == *forth && to == *back,
        _ => false,
    }
}

/// Whether a step's reversal makes the link with these ranks.
fn undoes_link(a: &Id, f: u32, ra: u64, b: &Id, rb: &Option<u64>, t: &Step) -> bool
    ensures { result ≡ step_eq (Link a.now f ra b.now rb.now) (rev t.now) }
{
    match t {
        Step::Unlink {
            a: x,
            f: g,
            ra: ranked,
            b: y,
            rb: mirrored,
        } => a == x && f == *g && ra == *ranked && b == y && rb == mirrored,
        _ => false,
    }
}

/// Whether a step's reversal takes the link with these ranks away.
fn undoes_unlink(a: &Id, f: u32, ra: u64, b: &Id, rb: &Option<u64>, t: &Step) -> bool
    ensures { result ≡ step_eq (Unlink a.now f ra b.now rb.now) (rev t.now) }
{
    match t {
        Step::Link {
            a: x,
            f: g,
            ra: ranked,
            b: y,
            rb: mirrored,
        } => a == x && f == *g && ra == *ranked && b == y && rb == mirrored,
        _ => false,
    }
}

/// Whether a step's reversal gives the link the other rank.
fn undoes_rerank(a: &Id, f: u32, b: &Id, old: u64, new: u64, t: &Step) -> bool
    ensures { result ≡ step_eq (RerankRow a.now f b.now old new) (rev t.now) }
{
    match t {
        Step::RerankRow {
            a: x,
            f: g,
            b: y,
            old: was,
            new: is,
        } => a == x && f == *g && b == y && old == *is && new == *was,
        _ => false,
    }
}

/// Whether a step's reversal makes the element there.
fn undoes_new(e: &Id, class: u32, place: &Place, rank: u64, t: &Step) -> bool
    ensures { result ≡ step_eq (New e.now class place.now rank) (rev t.now) }
{
    match t {
        Step::Gone {
            e: x,
            class: kind,
            place: spot,
            rank: ranked,
        } => e == x && class == *kind && place.is_same(spot) && rank == *ranked,
        _ => false,
    }
}

/// Whether a step's reversal takes the element away from there.
fn undoes_gone(e: &Id, class: u32, place: &Place, rank: u64, t: &Step) -> bool
    ensures { result ≡ step_eq (Gone e.now class place.now rank) (rev t.now) }
{
    match t {
        Step::New {
            e: x,
            class: kind,
            place: spot,
            rank: ranked,
        } => e == x && class == *kind && place.is_same(spot) && rank == *ranked,
        _ => false,
    }
}

/// Whether a step's reversal moves the element from one place to the other, with these ranks there.
fn undoes_move(
    e: &Id,
    from: &Place,
    to: &Place,
    ranks: (u64, u64),
    above_from: &List<Id>,
    above_to: &List<Id>,
    t: &Step,
) -> bool
    ensures { result ≡ step_eq (Move e.now from.now ranks.0 to.now ranks.1 above_from.now above_to.now) (rev t.now) }
{
    match t {
        Step::Move {
            e: x,
            from: back,
            from_rank: back_rank,
            to: forth,
            to_rank: forth_rank,
            above_from: above_back,
            above_to: above_forth,
        } => {
            e == x
                && from.is_same(forth.get())
                && ranks.0 == *forth_rank
                && to.is_same(back.get())
                && ranks.1 == *back_rank
                && are_same_ids(above_from, above_forth.get())
                && are_same_ids(above_to, above_back.get())
        }
        _ => false,
    }
}

/// Whether a step's reversal gives the element the other rank.
fn undoes_rerank_place(e: &Id, old: u64, new: u64, t: &Step) -> bool
    ensures { result ≡ step_eq (RerankPlace e.now old new) (rev t.now) }
{
    match t {
        Step::RerankPlace {
            e: x,
            old: was,
            new: is,
        } => e == x && old == *is && new == *was,
        _ => false,
    }
}

/// Whether a step is the reversal of another.
fn undoes(s: &Step, t: &Step) -> bool
    ensures { result ≡ step_eq s.now (rev t.now) }
{
    match s {
        Step::Put { e, f, old, new } => undoes_put(e, *f, old, new, t),
        Step::Ins { e, f, at, v } => undoes_ins(e, *f, *at, v, t),
        Step::Del { e, f, at, v } => undoes_del(e, *f, *at, v, t),
        Step::Shift { e, f, from, to } => undoes_shift(e, *f, *from, *to, t),
        Step::Link { a, f, ra, b, rb } => undoes_link(a, *f, *ra, b, rb, t),
        Step::Unlink { a, f, ra, b, rb } => undoes_unlink(a, *f, *ra, b, rb, t),
        Step::RerankRow { a, f, b, old, new } => undoes_rerank(a, *f, b, *old, *new, t),
        Step::New {
            e,
            class,
            place,
            rank,
        } => undoes_new(e, *class, place, *rank, t),
        Step::Gone {
            e,
            class,
            place,
            rank,
        } => undoes_gone(e, *class, place, *rank, t),
        Step::Move {
            e,
            from,
            from_rank,
            to,
            to_rank,
            above_from,
            above_to,
        } => {
            let ranks = (*from_rank, *to_rank);
            undoes_move(
                e,
                from.get(),
                to.get(),
                ranks,
                above_from.get(),
                above_to.get(),
                t,
            )
        },
        Step::RerankPlace { e, old, new } => undoes_rerank_place(e, *old, *new, t),
    }
}

fn undo_all(later: &[Step], earlier: &[Step]) -> bool
    ensures { result ≡ steps_eq later.now (rev_all earlier.now) }
{
    if later.len() != earlier.len() {
        return false;
    }
    for i in 0..later.len() {
        if !undoes(&later[i], &earlier[earlier.len() - 1 - i]) {
            return false;
        }
    }
    true
}

/// Whether the steps of an operation are the reversal of those of an earlier one.
pub(crate) fn takes_back(b: &Operation, a: &Operation) -> bool
    ensures { result ≡ takes_back b.now a.now }
{
    undo_all(b.steps(), a.steps())
}
