//! The lines of features that are below their lower bounds.
ghost use Rattle.std.specs.Prelude.{◌≡◌, ◌++◌, ◌∷◌, [], IfOk, OnOk, length};
ghost use Rattle.std.specs.Fmt.{decimal};
ghost use Rattle.std.specs.Option.{option_copied, option_map};
ghost use Rattle.std.specs.FinMap.{get};
ghost use Rattle.model_state.specs.Listing.{children};
ghost use Rattle.model_state.specs.declared.step.Place.TheVariants.{Inside};
ghost use Rattle.shown_lines.specs.Lines.{after_spaces};
ghost use Rattle.shown_lines.specs.Validation.{feature_lines, features_at, held_count, line_if_short, lower_in, stands_in, validate_lines};

use crate::line::Line;
use ecore_meta::{Feature, Kind, Metamodel};
use model_state::{Id, Look, Place, Placed};
use std::alloc::{AllocError, Global};
use texts::{List, Text};

/// The lines of the features that are below their lower bounds, `ID FEATURE COUNT LOWER`. The elements come in the
/// order of their ids, and the features of each by number. A single attribute counts 1 where it is set or has a
/// default. The reference to the container counts 1 where the element stands in its opposite. The others count their
/// entries. Skipped features aren't tested.
#[tactic(auto, unfolding(shown_lines::specs::Validation::validate_lines))]
pub fn validate_lines<L: Look>(
    alloc: Global,
    look: &L,
    meta: &Metamodel,
) -> Result<List<Text>, AllocError>
    ensures lines { IfOk result (λ lines. lines ≡ validate_lines meta.now (L.state look.now)) }
{
    let mut lines = List::new(alloc);
    let ids = look.ids(alloc)?;
    for e in ids.as_slice() {
        push_shortages(alloc, &mut lines, look, meta, e)?;
    }
    Ok(lines)
}

/// The numbers of the features of a class, none where there is no such class.
fn features_at(meta: &Metamodel, class: Option<u32>) -> &[u32]
    ensures { result.now ≡ features_at meta.now class }
{
    match class {
        None => &[],
        Some(class) => meta.features_of(class),
    }
}

/// The lines of an element.
fn push_shortages<L: Look>(
    alloc: Global,
    lines: &mut List<Text>,
    look: &L,
    meta: &Metamodel,
    e: &Id,
) -> Result<(), AllocError>
    ensures { OnOk result (lines.new ≡ lines.old ++ feature_lines meta.now (L.state look.now) e.now (features_at meta.now (get (L.state look.now).kind e.now))) }
{
    let features = features_at(meta, look.class(e));
    for f in features {
        push_if_short(alloc, lines, look, meta, e, *f)?;
    }
    Ok(())
}

/// The line of a feature, where it is short.
fn push_if_short<L: Look>(
    alloc: Global,
    lines: &mut List<Text>,
    look: &L,
    meta: &Metamodel,
    e: &Id,
    f: u32,
) -> Result<(), AllocError>
    ensures { OnOk result (lines.new ≡ lines.old ++ line_if_short meta.now (L.state look.now) e.now f) }
{
    let Some(feature) = meta.get_feature(f) else {
        return Ok(());
    };
    let count = held_count(alloc, look, e, f, &feature.kind)?;
    let lower = lower_in(feature);
    if count < lower {
        lines.push(shortage_line(alloc, e, feature, count, lower)?)?;
    }
    Ok(())
}

fn shortage_line(
    alloc: Global,
    e: &Id,
    feature: &Feature,
    count: u64,
    lower: u64,
) -> Result<Text, AllocError>
    ensures { IfOk result (λ t. t ≡ e.now ++ after_spaces (feature.now.name ∷ decimal count ∷ decimal lower ∷ [])) }
{
    let mut line = Line::new(alloc);
    line.push(e.as_str())?;
    line.push_word(feature.name.as_str())?;
    line.push_number(count)?;
    line.push_number(lower)?;
    line.into_text()
}

fn lower_in(feature: &Feature) -> u64
    ensures { result ≡ lower_in feature.now.kind feature.now.lower }
{
    match &feature.kind {
        Kind::Skip => 0,
        _ => feature.lower,
    }
}

fn stands_in(feature: u32, placed: Option<&Placed>) -> bool
    ensures { result ≡ stands_in feature (option_map (λ p. p.place) (option_copied placed.entry)) }
{
    match placed {
        None => false,
        Some(placed) => match &placed.place {
            Place::Root => false,
            Place::Inside { feature: at, .. } => feature == *at,
        },
    }
}

fn children_in<L: Look>(alloc: Global, look: &L, e: &Id, f: u32) -> Result<u64, AllocError>
    ensures { IfOk result (λ n. n ≡ length (children (L.state look.now).place (L.state look.now).prank (Inside e.now f))) }
{
    let place = Place::Inside {
        parent: e.copy(alloc)?,
        feature: f,
    };
    Ok(look.children(alloc, &place)?.len() as u64)
}

/// How much the feature of the element holds.
fn held_count<L: Look>(
    alloc: Global,
    look: &L,
    e: &Id,
    f: u32,
    kind: &Kind,
) -> Result<u64, AllocError>
    ensures { IfOk result (λ n. n ≡ held_count (L.state look.now) e.now f kind.now) }
{
    match kind {
        Kind::Attr { default, .. } => {
            let is_held = default.is_some() || look.attr_len(e, f) > 0;
            Ok(is_held as u64)
        }
        Kind::AttrMany { .. } => Ok(look.attr_len(e, f) as u64),
        Kind::Bounded { .. } => Ok(look.targets(alloc, e, f)?.len() as u64),
        Kind::Free { .. } => Ok(look.targets(alloc, e, f)?.len() as u64),
        Kind::Contains { .. } => children_in(alloc, look, e, f),
        Kind::Container { opposite, .. } => Ok(stands_in(*opposite, look.placed(e)) as u64),
        Kind::Skip => Ok(0),
    }
}
