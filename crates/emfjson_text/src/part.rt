//! The value under a key of an object: absent, a text without elements, or the elements of a containment.
ghost use Rattle.std.specs.Prelude.{◌≡◌, IfOk, Some, map};
ghost use Rattle.serde_json.specs.Data.{string};
ghost use Rattle.ecore_meta.specs.Typing.{is_one, kind_of};
ghost use Rattle.model_state.specs.Good.{Good};
ghost use Rattle.emfjson_text.specs.Frames.{Finds, is_absent, shown, text_if};
ghost use Rattle.model_texts.specs.Tree.{child_ids, content, listed, part, reference, target_ids};
ghost use Rattle.model_state.specs.declared.step.Place.TheVariants.{Inside};

use crate::frame::Object;
use crate::leaf::{class_text, many_values, one_value, quoted, references};
use ecore_meta::{Kind, Metamodel};
use model_state::{Entry, Id, Look, Place, is_one};
use model_texts::Key;
use std::alloc::{AllocError, Global};
use texts::{List, Text};

/// What stands under a key.
#[derive(Drop)]
pub(crate) enum Part {
    Absent,
    /// What holds no element, as its text.
    Leaf(Text),
    /// Elements: the one object where there is one and may be no other, else an array.
    Elements { single: bool, entries: List<Entry> },
}

/// A key under which something stands.
#[derive(Drop)]
pub(crate) struct Found {
    pub key: Key,
    pub part: Part,
    /// The place after it among the keys.
    pub after: usize,
}

impl Part {
    /// Whether the key is left out of the object.
    pub(crate) fn is_absent(&self) -> bool
        ensures { result ≡ is_absent self.now }
    {
        match self {
            Part::Absent => true,
            Part::Leaf(_) => false,
            Part::Elements { entries, .. } => entries.len() == 0,
        }
    }
}

fn leaf_if(text: Option<Text>) -> Part
    ensures { (below : _) → shown below result ≡ text }
{
    match text {
        None => Part::Absent,
        Some(text) => Part::Leaf(text),
    }
}

fn string_leaf(alloc: Global, text: &str) -> Result<Part, AllocError>
    ensures { IfOk result (λ p. (below : _) → shown below p ≡ text_if (Some (string text.now))) }
{
    let text = quoted(alloc, text)?;
    Ok(Part::Leaf(Text::new(alloc, text.as_str())?))
}

/// The targets of a reference.
fn targets_at<L: Look>(
    alloc: Global,
    look: &L,
    id: &Id,
    f: u32,
    single: bool,
) -> Result<Part, AllocError>
    ensures { IfOk result (λ p. (below : _) → shown below p ≡ text_if (listed single (map reference (target_ids (L.state look.now) id.now f)))) }
{
    let targets = look.targets(alloc, id, f)?;
    Ok(leaf_if(references(alloc, single, targets.as_slice())?))
}

/// The elements in a containment.
fn elements_at<L: Look>(
    alloc: Global,
    look: &L,
    id: &Id,
    f: u32,
    single: bool,
) -> Result<Part, AllocError>
    ensures { IfOk result (λ p. (below : _) → shown below p ≡ text_if (listed single (map below (child_ids (L.state look.now) (Inside id.now f))))) }
{
    let place = Place::Inside {
        parent: id.copy(alloc)?,
        feature: f,
    };
    Ok(Part::Elements {
        single,
        entries: look.children(alloc, &place)?,
    })
}

/// What stands under a feature of an element.
fn content_at<L: Look>(
    alloc: Global,
    look: &L,
    meta: &Metamodel,
    id: &Id,
    f: u32,
) -> Result<Part, AllocError>
    requires good { Good meta.now (L.state look.now) }
    ensures { IfOk result (λ p. (below : _) → shown below p ≡ text_if (content meta.now (L.state look.now) below id.now f (kind_of meta.now f))) }
{
    let Some(feature) = meta.get_feature(f) else {
        return Ok(Part::Absent);
    };
    let single = is_one(feature.upper);
    match &feature.kind {
        Kind::Attr { scalar, .. } => {
            let value = look.attr_at(id, f, 0);
            Ok(leaf_if(one_value(alloc, value, scalar, meta)?))
        }
        Kind::AttrMany { scalar, .. } => {
            let values = look.attr(alloc, id, f)?;
            Ok(leaf_if(many_values(alloc, values.as_slice(), scalar, meta)?))
        }
        Kind::Bounded { .. } => targets_at(alloc, look, id, f, single),
        Kind::Free { .. } => targets_at(alloc, look, id, f, single),
        Kind::Contains { .. } => elements_at(alloc, look, id, f, single),
        Kind::Container { .. } => Ok(Part::Absent),
        Kind::Skip => Ok(Part::Absent),
    }
}

/// What stands under a key of an element of the class.
fn part_at<L: Look>(
    alloc: Global,
    look: &L,
    meta: &Metamodel,
    id: &Id,
    class: u32,
    key: Key,
) -> Result<Part, AllocError>
    requires good { Good meta.now (L.state look.now) }
    ensures { IfOk result (λ p. (below : _) → shown below p ≡ text_if (part meta.now (L.state look.now) below id.now class key)) }
{
    match key {
        Key::Ident => string_leaf(alloc, id.as_str()),
        Key::Class => {
            let text = class_text(alloc, meta, class)?;
            string_leaf(alloc, text.as_str())
        }
        Key::Feature(f) => content_at(alloc, look, meta, id, f),
    }
}

/// The first of an object's keys from its place on under which something stands.
pub(crate) fn next_part<L: Look>(
    alloc: Global,
    look: &L,
    meta: &Metamodel,
    object: &Object,
) -> Result<Option<Found>, AllocError>
    requires good { Good meta.now (L.state look.now) }
    ensures { IfOk result (Finds meta.now (L.state look.now) object.now.id object.now.class object.now.keys object.now.next) }
{
    let keys = object.keys.as_slice();
    for at in object.next..keys.len() {
        let key = keys[at];
        let part = part_at(alloc, look, meta, &object.id, object.class, key)?;
        if !part.is_absent() {
            return Ok(Some(Found {
                key,
                part,
                after: at + 1,
            }));
        }
    }
    Ok(None)
}
