//! Which version wrote a feature last, by the index of a history.
ghost use Rattle.std.specs.Prelude.{◌≡◌, ◌<◌, ◌++◌, [], All, IfOk, OnOk, length, option_map};
ghost use Rattle.std.specs.List.{cons_option};
ghost use Rattle.ecore_meta.specs.Meta.{name_at};
ghost use Rattle.history_tree.specs.Laws.{Rises};
ghost use Rattle.metamodel_growth.specs.Extension.{owner_name};
ghost use Rattle.change_index.specs.Index.{wrote_in};
ghost use Rattle.change_index.specs.Last.{last_of};
ghost use Rattle.feature_writers.specs.Writers.{last_write, blame_line, lines_by, blame_lines};

use change_index::{ChangeIndex, index_of, law_of_last_writes};
use ecore_meta::Metamodel;
use history_tree::History;
use model_state::Id;
use std::alloc::{AllocError, Global};
use texts::{List, Text};

/// The last version of a path that wrote the feature, by the index.
fn last_on(index: &ChangeIndex, path: &List<u32>, e: &Id, f: u32) -> Option<u32>
    requires rises { Rises path.now }
    requires low { All (λ u. u < length index.now) path.now }
    ensures { result ≡ last_of (wrote_in index.now e.now f) path.now }
{
    law_of_last_writes();
    index.last(path, e, f)
}

/// The last version on the path of that version that wrote the feature of the element.
pub(crate) fn last_write(
    alloc: Global,
    meta: &Metamodel,
    history: &History,
    version: u32,
    e: &Id,
    f: u32,
) -> Result<Option<u32>, AllocError>
    requires there { version < length history.now.history.versions }
    ensures { IfOk result (λ last. last ≡ last_write meta.now history.now.history version e.now f) }
{
    history.recall_wholeness();
    law_of_last_writes();
    let index = index_of(alloc, meta, history)?;
    let path = history.path(alloc, version)?;
    Ok(last_on(&index, &path, e, f))
}

/// The name of the class that declares a feature.
fn owner_name(meta: &Metamodel, f: u32) -> &str
    ensures { result.now ≡ owner_name meta.now f }
{
    let Some(feature) = meta.get_feature(f) else {
        return "";
    };
    match meta.get_class(feature.owner) {
        None => "",
        Some(class) => class.name.as_str(),
    }
}

/// The name of a feature.
fn feature_name(meta: &Metamodel, f: u32) -> &str
    ensures { result.now ≡ name_at meta.now.features f }
{
    match meta.get_feature(f) {
        None => "",
        Some(feature) => feature.name.as_str(),
    }
}

/// A feature with the class that declares it, and the version that wrote it last.
fn blame_line(alloc: Global, meta: &Metamodel, f: u32, version: u32) -> Result<Text, AllocError>
    ensures { IfOk result (λ line. line ≡ blame_line meta.now f version) }
{
    let mut line = String::from_str(alloc, owner_name(meta, f))?;
    line.push_str(".")?;
    line.push_str(feature_name(meta, f))?;
    let number = format!(in alloc; " {version}")?;
    line.push_str(number.as_str())?;
    Text::new(alloc, line.as_str())
}

/// The line of a feature comes after others, where a version wrote it.
fn push_if_written(
    alloc: Global,
    lines: &mut List<Text>,
    meta: &Metamodel,
    f: u32,
    version: Option<u32>,
) -> Result<(), AllocError>
    ensures { OnOk result (lines.new ≡ lines.old ++ cons_option (option_map (blame_line meta.now f) version) []) }
{
    let Some(version) = version else {
        return Ok(());
    };
    lines.push(blame_line(alloc, meta, f, version)?)?;
    Ok(())
}

/// The lines of the features that some version of the path wrote, by number.
fn lines_on(
    alloc: Global,
    meta: &Metamodel,
    index: &ChangeIndex,
    path: &List<u32>,
    e: &Id,
) -> Result<List<Text>, AllocError>
    requires rises { Rises path.now }
    requires low { All (λ u. u < length index.now) path.now }
    ensures { IfOk result (λ lines. lines ≡ lines_by meta.now (λ f. last_of (wrote_in index.now e.now f) path.now)) }
{
    let mut lines = List::new(alloc);
    for f in 0..meta.feature_count() {
        let last = last_on(index, path, e, f);
        push_if_written(alloc, &mut lines, meta, f, last)?;
    }
    Ok(lines)
}

/// The lines of the features of the element that some version on the path of that version wrote, by number.
pub(crate) fn blame_lines(
    alloc: Global,
    meta: &Metamodel,
    history: &History,
    version: u32,
    e: &Id,
) -> Result<List<Text>, AllocError>
    requires there { version < length history.now.history.versions }
    ensures { IfOk result (λ lines. lines ≡ blame_lines meta.now history.now.history version e.now) }
{
    history.recall_wholeness();
    law_of_last_writes();
    let index = index_of(alloc, meta, history)?;
    let path = history.path(alloc, version)?;
    lines_on(alloc, meta, &index, &path, e)
}
