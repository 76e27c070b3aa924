//! The lines of a history's versions, and those of a version's package with its bytes.
ghost use Rattle.std.specs.Prelude.{◌≡◌, ◌++◌, ◌∷◌, [], ◌<◌, IfOk, OnOk, Some, codes, length, map, slice_get};
ghost use Rattle.std.specs.Fmt.{decimal};
ghost use Rattle.serde_json.specs.Data.{string};
ghost use Rattle.serde_json.specs.Written.{compact_text};
ghost use Rattle.hex.specs.Hex.{encode_lower};
ghost use Rattle.history_tree.specs.Found.{branch_name, tags_of};
ghost use Rattle.op_form.specs.Packages.{package_encoding};
ghost use Rattle.op_form.specs.Formed.{IsPackage};
ghost use Rattle.shown_lines.specs.Lines.{optional, operation_lines, after_spaces};
ghost use Rattle.shown_lines.specs.Typed.{IsTypedPackage};
ghost use Rattle.shown_lines.specs.Versions.{after_commas, listed, log_lines, package_lines, version_line};

use crate::line::Line;
use crate::operation::operation_lines;
use ecore_meta::Metamodel;
use history_tree::{History, Version};
use model_state::Package;
use op_form::encode;
use serde_json::Value as Json;
use std::alloc::{AllocError, Global};
use texts::{List, Text};

/// The lines of a history, a line for each version in the order of numbers: `N BRANCH PARENT MERGED OPS TAGS AUTHOR MOMENT
/// MESSAGE`. PARENT, MERGED, TAGS, AUTHOR and MOMENT are `-` where there is none, and lists have commas between their items. OPS is the
/// number of operations of the version, and MESSAGE its message as a JSON text. It goes over the tags once.
#[tactic(auto, unfolding(shown_lines::specs::Versions::log_lines))]
pub fn log_lines(alloc: Global, history: &History) -> Result<List<Text>, AllocError>
    ensures lines { IfOk result (λ lines. lines ≡ log_lines history.now.history) }
{
    let tags = history.tags_by_version(alloc)?;
    let mut lines = List::new(alloc);
    for n in 0..history.version_count() {
        let names = tags[n as usize].as_slice();
        lines.push(version_line(alloc, history, n, history.version(n), names)?)?;
    }
    Ok(lines)
}

/// The lines of a version's package, as `operation_lines` gives them, and then `hex ` and the bytes of the package in hexadecimal digits. That
/// the package has bytes is tested by `is_package` of `op_form`.
#[tactic(auto, unfolding(shown_lines::specs::Versions::package_lines))]
pub fn package_lines(
    alloc: Global,
    package: &Package,
    meta: &Metamodel,
) -> Result<List<Text>, AllocError>
    requires typed { IsTypedPackage meta.now «package».now }
    requires spelled { IsPackage «package».now }
    ensures lines { IfOk result (λ lines. lines ≡ package_lines meta.now «package».now) }
{
    let mut lines = operation_lines(alloc, package.as_slice(), meta)?;
    lines.push(hex_line(alloc, package)?)?;
    Ok(lines)
}

/// `hex` and the bytes of a package.
fn hex_line(alloc: Global, package: &Package) -> Result<Text, AllocError>
    requires { IsPackage «package».now }
    ensures { IfOk result (λ t. t ≡ codes "hex " ++ encode_lower (package_encoding «package».now)) }
{
    let bytes = encode(alloc, package)?;
    let digits = hex::encode(alloc, bytes.as_slice())?;
    let mut line = Line::new(alloc);
    line.push("hex ")?;
    line.push(digits.as_str())?;
    line.into_text()
}

/// The line of a version, whose tags have these names.
fn version_line(
    alloc: Global,
    history: &History,
    n: u32,
    version: &Version,
    tags: &[Text],
) -> Result<Text, AllocError>
    requires tags { tags.now ≡ tags_of history.now.history n }
    requires branch { version.now.branch < length history.now.history.branches }
    ensures { IfOk result (λ t. t ≡ version_line history.now.history n version.now) }
{
    let mut line = Line::new(alloc);
    line.push_digits(n as u64)?;
    push_origin(alloc, &mut line, history, version)?;
    push_content(alloc, &mut line, version, tags)?;
    line.into_text()
}

/// Adds the branch of a version, its parent, and what was merged into it.
fn push_origin(
    alloc: Global,
    line: &mut Line,
    history: &History,
    version: &Version,
) -> Result<(), AllocError>
    requires { version.now.branch < length history.now.history.branches }
    ensures { OnOk result (line.new ≡ line.old ++ after_spaces (branch_name history.now.history version.now.branch ∷ optional decimal version.now.parent ∷ listed (map decimal version.now.merged) ∷ [])) }
{
    line.push_word(history.branch_name(version.branch))?;
    push_number_if_any(line, version.parent)?;
    let merged = decimals(alloc, version.merged.as_slice())?;
    push_list(line, merged.as_slice())
}

/// Adds how many operations a version has, its tags, its author, its moment, and its message.
fn push_content(
    alloc: Global,
    line: &mut Line,
    version: &Version,
    tags: &[Text],
) -> Result<(), AllocError>
    ensures { OnOk result (line.new ≡ line.old ++ after_spaces (decimal (length version.now.«package») ∷ listed tags.now ∷ optional (λ author. author) version.now.author ∷ optional decimal version.now.moment ∷ compact_text (string version.now.message) ∷ [])) }
{
    line.push_number(version.package.len() as u64)?;
    push_list(line, tags)?;
    push_author(line, &version.author)?;
    push_moment(line, version.moment)?;
    push_json(alloc, line, version.message.as_str())
}

/// Numbers in decimal.
fn decimals(alloc: Global, numbers: &[u32]) -> Result<List<Text>, AllocError>
    ensures { IfOk result (λ texts. texts ≡ map decimal numbers.now) }
{
    let mut texts = List::new(alloc);
    for number in numbers {
        let digits = format!(in alloc; "{number}")?;
        texts.push(Text::new(alloc, digits.as_str())?)?;
    }
    Ok(texts)
}

/// Adds a space and a number in decimal, or `-` where there is none.
fn push_number_if_any(line: &mut Line, number: Option<u32>) -> Result<(), AllocError>
    ensures { OnOk result (line.new ≡ line.old ++ 32 ∷ optional decimal number) }
{
    match number {
        None => line.push_word("-"),
        Some(number) => line.push_number(number as u64),
    }
}

/// Adds a space and a version's author, or `-` where it has none.
fn push_author(line: &mut Line, author: &Option<Text>) -> Result<(), AllocError>
    ensures { OnOk result (line.new ≡ line.old ++ 32 ∷ optional (λ name. name) author.now) }
{
    match author {
        None => line.push_word("-"),
        Some(name) => line.push_word(name.as_str()),
    }
}

/// Adds a space and a version's moment in decimal, or `-` where it has none.
fn push_moment(line: &mut Line, moment: Option<u64>) -> Result<(), AllocError>
    ensures { OnOk result (line.new ≡ line.old ++ 32 ∷ optional decimal moment) }
{
    match moment {
        None => line.push_word("-"),
        Some(moment) => line.push_number(moment),
    }
}

/// Adds a space and words with commas between them, or `-` where there is none.
pub(crate) fn push_list(line: &mut Line, words: &[Text]) -> Result<(), AllocError>
    ensures { OnOk result (line.new ≡ line.old ++ 32 ∷ listed words.now) }
{
    match words {
        [] => line.push_word("-"),
        [first, rest @ ..] => {
            line.push_word(first.as_str())?;
            push_after_commas(line, rest)
        }
    }
}

/// Adds words, a comma before each.
fn push_after_commas(line: &mut Line, words: &[Text]) -> Result<(), AllocError>
    ensures { OnOk result (line.new ≡ line.old ++ after_commas words.now) }
{
    for word in words {
        line.push(",")?;
        line.push(word.as_str())?;
    }
    Ok(())
}

/// Adds a space and a text as a JSON string.
fn push_json(alloc: Global, line: &mut Line, text: &str) -> Result<(), AllocError>
    ensures { OnOk result (line.new ≡ line.old ++ 32 ∷ compact_text (string text.now)) }
{
    let json = Json::try_from_str(alloc, text)?.to_string(alloc)?;
    line.push_word(json.as_str())
}
