//! The writer of a model's text: what is begun stands on a stack, so that no call nests as deep as the model.
ghost use Rattle.std.specs.Prelude.{◌≡◌, ◌++◌, [], IfOk, OnOk, map, false};
ghost use Rattle.std.specs.String.{string_bytes};
ghost use Rattle.serde_json.specs.Written.{compact_text};
ghost use Rattle.model_state.specs.Good.{Good};
ghost use Rattle.emfjson_text.specs.Frames.{Writes, frame_text, is_absent, key_text, part_text};
ghost use Rattle.model_texts.specs.Laws.{IsNested};
ghost use Rattle.model_texts.specs.Tree.{entry_ids, one_or_list, text, whole};
ghost use Rattle.emfjson_text.specs.declared.frame.Frame.TheVariants.{Array as ArrayFrame, Object as ObjectFrame};

use crate::frame::{Frame, Object};
use crate::key::{key_name, keys_of};
use crate::leaf::{only, quoted};
use crate::part::{Part, next_part};
use ecore_meta::Metamodel;
use model_state::{Entry, Id, Look, Place};
use std::alloc::{AllocError, Global};
use texts::{List, Text};

/// A text in the making: what is written so far, and what is begun, the outermost first. The depth of a model is that
/// of this stack, and no call's.
#[derive(Drop)]
struct Writer {
    alloc: Global,
    out: String,
    begun: Vec<Frame>,
}

impl Writer {
    fn new(alloc: Global) -> Writer
        ensures out { string_bytes result.out ≡ [] }
        ensures begun { result.begun.items ≡ [] }
    {
        Writer {
            alloc,
            out: String::new(alloc),
            begun: Vec::new(alloc),
        }
    }

    /// Writes a key, after a comma where a member stands before.
    fn write_key(&mut self, later: bool, name: &str) -> Result<(), AllocError>
        ensures out { OnOk result (string_bytes self.new.out ≡ string_bytes self.old.out ++ key_text later name.now) }
        ensures begun { OnOk result (self.new.begun.items ≡ self.old.begun.items) }
    {
        if later {
            self.out.push_str(",")?;
        }
        let key = quoted(self.alloc, name)?;
        self.out.push_str(key.as_str())?;
        self.out.push_str(":")?;
        Ok(())
    }

    /// Begins an element's object.
    fn begin_object<L: Look>(
        &mut self,
        look: &L,
        meta: &Metamodel,
        id: Id,
    ) -> Result<(), AllocError>
        requires nested { IsNested meta.now (L.state look.now) }
        ensures { OnOk result (Writes 1 meta.now (L.state look.now) (compact_text (whole meta.now (L.state look.now) id)) self.old.begun.items self.new.begun.items (string_bytes self.old.out) (string_bytes self.new.out)) }
    {
        match look.class(&id) {
            None => {
                self.out.push_str("{}")?;
                Ok(())
            }
            Some(class) => {
                let keys = keys_of(self.alloc, meta, class)?;
                self.out.push_str("{")?;
                self.begun.push(Frame::Object(Object {
                    id,
                    class,
                    keys,
                    next: 0,
                    later: false,
                }))?;
                Ok(())
            }
        }
    }

    /// Begins a list of elements: the one object where there is one and may be no other, else an array.
    fn begin_list<L: Look>(
        &mut self,
        look: &L,
        meta: &Metamodel,
        single: bool,
        entries: List<Entry>,
    ) -> Result<(), AllocError>
        requires nested { IsNested meta.now (L.state look.now) }
        ensures { OnOk result (Writes 1 meta.now (L.state look.now) (compact_text (one_or_list single (map (whole meta.now (L.state look.now)) (entry_ids entries)))) self.old.begun.items self.new.begun.items (string_bytes self.old.out) (string_bytes self.new.out)) }
    {
        match only(single, entries.as_slice()) {
            Some(entry) => {
                let id = entry.id.copy(self.alloc)?;
                self.begin_object(look, meta, id)
            }
            None => {
                self.out.push_str("[")?;
                self.begun.push(Frame::Array { entries, next: 0 })?;
                Ok(())
            }
        }
    }

    /// Writes or begins what stands under a key.
    fn write_part<L: Look>(
        &mut self,
        look: &L,
        meta: &Metamodel,
        part: Part,
    ) -> Result<(), AllocError>
        requires nested { IsNested meta.now (L.state look.now) }
        requires there { is_absent part ≡ false }
        ensures { OnOk result (Writes 0 meta.now (L.state look.now) (part_text meta.now (L.state look.now) part) self.old.begun.items self.new.begun.items (string_bytes self.old.out) (string_bytes self.new.out)) }
    {
        match part {
            Part::Absent => Ok(()),
            Part::Leaf(text) => {
                self.out.push_str(text.as_str())?;
                Ok(())
            }
            Part::Elements { single, entries } => self.begin_list(look, meta, single, entries),
        }
    }

    /// Goes on with an object, by one member or by its end.
    fn step_object<L: Look>(
        &mut self,
        look: &L,
        meta: &Metamodel,
        object: Object,
    ) -> Result<(), AllocError>
        requires good { Good meta.now (L.state look.now) }
        requires nested { IsNested meta.now (L.state look.now) }
        ensures { OnOk result (Writes 1 meta.now (L.state look.now) (frame_text meta.now (L.state look.now) (ObjectFrame object)) self.old.begun.items self.new.begun.items (string_bytes self.old.out) (string_bytes self.new.out)) }
    {
        match next_part(self.alloc, look, meta, &object)? {
            None => {
                self.out.push_str("}")?;
                Ok(())
            }
            Some(found) => {
                self.write_key(object.later, key_name(meta, found.key))?;
                self.begun.push(Frame::Object(Object {
                    id: object.id,
                    class: object.class,
                    keys: object.keys,
                    next: found.after,
                    later: true,
                }))?;
                self.write_part(look, meta, found.part)
            }
        }
    }

    /// Goes on with an array, by one element or by its end.
    fn step_array<L: Look>(
        &mut self,
        look: &L,
        meta: &Metamodel,
        entries: List<Entry>,
        next: usize,
    ) -> Result<(), AllocError>
        requires nested { IsNested meta.now (L.state look.now) }
        ensures { OnOk result (Writes 1 meta.now (L.state look.now) (frame_text meta.now (L.state look.now) (ArrayFrame entries next)) self.old.begun.items self.new.begun.items (string_bytes self.old.out) (string_bytes self.new.out)) }
    {
        let Some(entry) = entries.get(next) else {
            self.out.push_str("]")?;
            return Ok(());
        };
        let id = entry.id.copy(self.alloc)?;
        if next > 0 {
            self.out.push_str(",")?;
        }
        self.begun.push(Frame::Array {
            entries,
            next: next + 1,
        })?;
        self.begin_object(look, meta, id)
    }

    /// Goes on with what was begun last.
    fn step<L: Look>(&mut self, look: &L, meta: &Metamodel, frame: Frame) -> Result<(), AllocError>
        requires good { Good meta.now (L.state look.now) }
        requires nested { IsNested meta.now (L.state look.now) }
        ensures { OnOk result (Writes 1 meta.now (L.state look.now) (frame_text meta.now (L.state look.now) frame) self.old.begun.items self.new.begun.items (string_bytes self.old.out) (string_bytes self.new.out)) }
    {
        match frame {
            Frame::Object(object) => self.step_object(look, meta, object),
            Frame::Array { entries, next } => self.step_array(look, meta, entries, next),
        }
    }
}

/// The text of a model: JSON without spaces. No element is `[]`, one root is its object, several are the array of their
/// objects. An object has its keys in the order of their bytes: `_id`, `eClass` as `nsURI#//Name`, and each feature
/// under which something stands. That is an attribute that is set, a list of values, a reference as `{"$ref":"id"}` or
/// a containment as the objects inside. References and containments are arrays, unless their upper bound is 1. A
/// literal is its text. The container is not written.
///
/// The text is written by a stack of its own, however deep the elements stand in one another.
pub fn write_model<L: Look>(alloc: Global, look: &L, meta: &Metamodel) -> Result<Text, AllocError>
    requires good { Good meta.now (L.state look.now) }
    ensures text { IfOk result (λ t. t ≡ text meta.now (L.state look.now)) }
{
    let mut writer = Writer::new(alloc);
    let roots = look.children(alloc, &Place::Root)?;
    writer.begin_list(look, meta, true, roots)?;
    while let Some(frame) = writer.begun.pop() {
        writer.step(look, meta, frame)?;
    }
    Text::new(alloc, writer.out.as_str())
}
