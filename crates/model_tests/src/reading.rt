//! Steps as words: the kind of a step and its fields in their order, each after one blank. A class and a feature are their numbers.
//!
//! A place is `/`, or `a.4` inside the element a, in its feature 4. A value is `"Emma"`, with `\n` and `\"` in it as in JSON, `-5`, `true`, or `#1`,
//! the literal of that number. Containers have commas between them. `-` is no value, no rank, or no containers. Only a value at the end may have
//! blanks. Steps have `; ` between them. An operation is its steps, and before those of a composite stand its name and `: `.
use ecore_meta::{Boxed, CompactList, Value};
use model_state::{Id, OpKind, Operation, Place, Step};
use std::alloc::Global;
use std::test::Fail;
use texts::{List, Text};

// What stands before the first mark and after it: the text and nothing, where there is none.
pub(crate) fn cut<'a>(text: &'a str, mark: &str) -> (&'a str, &'a str) {
    match text.split_once(mark) {
        Some(parts) => parts,
        None => (text, ""),
    }
}

// The same, but nothing and the text, where there is no mark.
pub(crate) fn prefixed<'a>(text: &'a str, mark: &str) -> (&'a str, &'a str) {
    match text.split_once(mark) {
        Some(parts) => parts,
        None => ("", text),
    }
}

// The words of a step or a call that are still to be read.
#[derive(Drop)]
pub(crate) struct Words<'a> {
    rest: &'a str,
}

pub(crate) fn words_of(text: &str) -> Words<'_> {
    Words { rest: text }
}

impl<'a> Words<'a> {
    pub(crate) fn word(&mut self) -> &'a str {
        let (word, rest) = cut(self.rest, " ");
        self.rest = rest;
        word
    }

    // All that is not read yet.
    pub(crate) fn rest(&self) -> &'a str {
        self.rest
    }

    pub(crate) fn number(&mut self) -> Result<u32, Fail> {
        Ok(self.word().parse::<u32>()?)
    }

    pub(crate) fn rank(&mut self) -> Result<u64, Fail> {
        Ok(self.word().parse::<u64>()?)
    }

    pub(crate) fn optional_rank(&mut self) -> Result<Option<u64>, Fail> {
        let word = self.word();
        if word == "-" {
            return Ok(None);
        }
        Ok(Some(word.parse::<u64>()?))
    }
}

pub(crate) fn id(alloc: Global, word: &str) -> Result<Id, Fail> {
    Ok(Id::read(alloc, word)?)
}

pub(crate) fn place(alloc: Global, word: &str) -> Result<Place, Fail> {
    match word.split_once('.') {
        None => Ok(Place::Root),
        Some((parent, feature)) => {
            let feature = feature.parse::<u32>()?;
            let parent = id(alloc, parent)?;
            Ok(Place::Inside { parent, feature })
        }
    }
}

fn containers(alloc: Global, word: &str) -> Result<List<Id>, Fail> {
    let mut ids = List::new(alloc);
    if word != "-" {
        put_ids(alloc, &mut ids, word)?;
    }
    Ok(ids)
}

fn put_ids(alloc: Global, ids: &mut List<Id>, words: &str) -> Result<(), Fail> {
    for word in words.split(',') {
        ids.push(id(alloc, word)?)?;
    }
    Ok(())
}

// The text before the last quotation mark; `\n` and `\"` in it are as in JSON.
fn quoted(alloc: Global, text: &str) -> Result<Value, Fail> {
    let text = text.strip_suffix('"').ok_or("no end of a text")?;
    let lines = text.replace(alloc, r"\n", "\n")?;
    let text = lines.as_str().replace(alloc, r#"\""#, r#"""#)?;
    Ok(Value::Text(Text::new(alloc, text.as_str())?))
}

fn flag_or_number(text: &str) -> Result<Value, Fail> {
    match text {
        "true" => Ok(Value::Flag(true)),
        "false" => Ok(Value::Flag(false)),
        _ => Ok(Value::Whole(text.parse::<i64>()?)),
    }
}

fn value(alloc: Global, text: &str) -> Result<Value, Fail> {
    if let Some(number) = text.strip_prefix('#') {
        return Ok(Value::Literal(number.parse::<u32>()?));
    }
    match text.strip_prefix('"') {
        Some(rest) => quoted(alloc, rest),
        None => flag_or_number(text),
    }
}

fn optional(alloc: Global, text: &str) -> Result<Option<Value>, Fail> {
    if text == "-" {
        return Ok(None);
    }
    Ok(Some(value(alloc, text)?))
}

fn put(alloc: Global, words: &mut Words) -> Result<Step, Fail> {
    let e = words.word();
    let f = words.number()?;
    let old = words.word();
    let new = words.rest();
    Ok(Step::Put {
        e: id(alloc, e)?,
        f,
        old: optional(alloc, old)?,
        new: optional(alloc, new)?,
    })
}

fn ins(alloc: Global, words: &mut Words) -> Result<Step, Fail> {
    let e = words.word();
    let f = words.number()?;
    let at = words.number()?;
    let e = id(alloc, e)?;
    let v = value(alloc, words.rest())?;
    Ok(Step::Ins { e, f, at, v })
}

fn del(alloc: Global, words: &mut Words) -> Result<Step, Fail> {
    let e = words.word();
    let f = words.number()?;
    let at = words.number()?;
    let e = id(alloc, e)?;
    let v = value(alloc, words.rest())?;
    Ok(Step::Del { e, f, at, v })
}

fn shift(alloc: Global, words: &mut Words) -> Result<Step, Fail> {
    let e = words.word();
    let f = words.number()?;
    let from = words.number()?;
    let to = words.number()?;
    let e = id(alloc, e)?;
    Ok(Step::Shift { e, f, from, to })
}

fn link(alloc: Global, words: &mut Words) -> Result<Step, Fail> {
    let a = words.word();
    let f = words.number()?;
    let ra = words.rank()?;
    let b = words.word();
    let rb = words.optional_rank()?;
    let a = id(alloc, a)?;
    let b = id(alloc, b)?;
    Ok(Step::Link { a, f, ra, b, rb })
}

fn unlink(alloc: Global, words: &mut Words) -> Result<Step, Fail> {
    let a = words.word();
    let f = words.number()?;
    let ra = words.rank()?;
    let b = words.word();
    let rb = words.optional_rank()?;
    let a = id(alloc, a)?;
    let b = id(alloc, b)?;
    Ok(Step::Unlink { a, f, ra, b, rb })
}

fn rerank_row(alloc: Global, words: &mut Words) -> Result<Step, Fail> {
    let a = words.word();
    let f = words.number()?;
    let b = words.word();
    let old = words.rank()?;
    let new = words.rank()?;
    let a = id(alloc, a)?;
    let b = id(alloc, b)?;
    Ok(Step::RerankRow { a, f, b, old, new })
}

fn new_element(alloc: Global, words: &mut Words) -> Result<Step, Fail> {
    let e = words.word();
    let class = words.number()?;
    let at = words.word();
    let rank = words.rank()?;
    let e = id(alloc, e)?;
    let place = place(alloc, at)?;
    Ok(Step::New {
        e,
        class,
        place,
        rank,
    })
}

fn gone(alloc: Global, words: &mut Words) -> Result<Step, Fail> {
    let e = words.word();
    let class = words.number()?;
    let at = words.word();
    let rank = words.rank()?;
    let e = id(alloc, e)?;
    let place = place(alloc, at)?;
    Ok(Step::Gone {
        e,
        class,
        place,
        rank,
    })
}

// A place that is left, and one that is entered.
fn two_places(alloc: Global, from: &str, to: &str) -> Result<(Boxed<Place>, Boxed<Place>), Fail> {
    let from = Boxed::new(alloc, place(alloc, from)?)?;
    let to = Boxed::new(alloc, place(alloc, to)?)?;
    Ok((from, to))
}

// Containers, in a box.
fn boxed_containers(alloc: Global, word: &str) -> Result<Boxed<List<Id>>, Fail> {
    Ok(Boxed::new(alloc, containers(alloc, word)?)?)
}

// The containers of both places of a move.
fn both_containers(
    alloc: Global,
    words: &mut Words,
) -> Result<(Boxed<List<Id>>, Boxed<List<Id>>), Fail> {
    let above_from = boxed_containers(alloc, words.word())?;
    let above_to = boxed_containers(alloc, words.word())?;
    Ok((above_from, above_to))
}

fn move_element(alloc: Global, words: &mut Words) -> Result<Step, Fail> {
    let e = words.word();
    let from = words.word();
    let from_rank = words.rank()?;
    let to = words.word();
    let to_rank = words.rank()?;
    let (from, to) = two_places(alloc, from, to)?;
    let (above_from, above_to) = both_containers(alloc, words)?;
    Ok(Step::Move {
        e: id(alloc, e)?,
        from,
        from_rank,
        to,
        to_rank,
        above_from,
        above_to,
    })
}

fn rerank_place(alloc: Global, words: &mut Words) -> Result<Step, Fail> {
    let e = words.word();
    let old = words.rank()?;
    let new = words.rank()?;
    let e = id(alloc, e)?;
    Ok(Step::RerankPlace { e, old, new })
}

// A step on the values of an attribute or on a reference.
fn feature_step(alloc: Global, kind: &str, words: &mut Words) -> Result<Step, Fail> {
    match kind {
        "Put" => put(alloc, words),
        "Ins" => ins(alloc, words),
        "Del" => del(alloc, words),
        "Shift" => shift(alloc, words),
        "Link" => link(alloc, words),
        "Unlink" => unlink(alloc, words),
        "RerankRow" => rerank_row(alloc, words),
        _ => Err("no kind of step")?,
    }
}

pub(crate) fn step(alloc: Global, text: &str) -> Result<Step, Fail> {
    let mut words = words_of(text);
    match words.word() {
        "New" => new_element(alloc, &mut words),
        "Gone" => gone(alloc, &mut words),
        "Move" => move_element(alloc, &mut words),
        "RerankPlace" => rerank_place(alloc, &mut words),
        kind => feature_step(alloc, kind, &mut words),
    }
}

pub(crate) fn steps(alloc: Global, text: &str) -> Result<List<Step>, Fail> {
    let mut steps = List::new(alloc);
    for line in text.split("; ") {
        steps.push(step(alloc, line)?)?;
    }
    Ok(steps)
}

fn composite(alloc: Global, name: &str, lines: &str) -> Result<Operation, Fail> {
    let name = Text::new(alloc, name)?;
    let steps = steps(alloc, lines)?;
    Ok(Operation::Composite { name, steps })
}

// A composite, or a simple operation, whose kind nothing here goes by.
pub(crate) fn operation(alloc: Global, text: &str) -> Result<Operation, Fail> {
    match text.split_once(": ") {
        Some((name, lines)) => composite(alloc, name, lines),
        None => {
            let kind = OpKind::Create;
            let steps = CompactList::from_list(steps(alloc, text)?);
            Ok(Operation::Simple { kind, steps })
        }
    }
}
