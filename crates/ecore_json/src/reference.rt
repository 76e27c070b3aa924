//! The names of a document, and its references to classifiers, to types of Ecore and to features.
ghost use Rattle.std.specs.Prelude.{◌≡◌, option_copied, option_map};
ghost use Rattle.std.specs.List.{list_all};
ghost use Rattle.ecore_json.specs.References.{is_name, is_name_byte, is_feature_name, is_type_reference, after_prefix, name_after, own_name, ecore_name, pair_after, own_feature, if_names, two_names};

use crate::ecore;

/// The most bytes of a name.
const MOST_NAME_BYTES: usize = 128;

/// Whether a text is a name: a letter, `_` or `$`, and letters, digits, `_` or `$` after it, all ASCII, at most
/// 128 bytes.
pub(crate) fn is_name(text: &str) -> bool
    ensures { result ≡ is_name text.now }
{
    match text.as_bytes() {
        [] => false,
        [first, rest @ ..] => {
            (first.is_ascii_alphabetic() || *first == b'_' || *first == b'$')
                && rest.len() < MOST_NAME_BYTES
                && are_name_bytes(rest)
        }
    }
}

fn are_name_bytes(bytes: &[u8]) -> bool
    ensures { result ≡ list_all is_name_byte bytes.now }
{
    bytes.iter().all(|byte| byte.is_ascii_alphanumeric() || *byte == b'_' || *byte == b'$')
}

/// Whether a text may name a feature.
pub(crate) fn is_feature_name(text: &str) -> bool
    ensures { result ≡ is_feature_name text.now }
{
    is_name(text) && !(text == "eClass" || text == "_id" || text == "$ref")
}

fn after_prefix<'a>(prefix: &str, text: &'a str) -> Option<&'a str>
    ensures { option_copied result ≡ after_prefix prefix.now text.now }
{
    text.strip_prefix(prefix)
}

#[tactic(auto, unfolding(crate::specs::References::name_after))]
fn name_after<'a>(prefix: &str, text: &'a str) -> Option<&'a str>
    ensures { option_copied result ≡ name_after prefix.now text.now }
{
    match after_prefix(prefix, text) {
        None => None,
        Some(name) => { if is_name(name) { Some(name) } else { None } }
    }
}

/// The name of the classifier that a reference names, where the package's own references begin with `own`.
#[tactic(auto, unfolding(crate::specs::References::own_name))]
pub(crate) fn own_name<'a>(own: &str, text: &'a str) -> Option<&'a str>
    ensures { option_copied result ≡ own_name own.now text.now }
{
    if let Some(name) = name_after("//", text) {
        return Some(name);
    }
    if let Some(name) = name_after("#//", text) {
        return Some(name);
    }
    name_after(own, text)
}

/// The name of the type of Ecore that a reference names.
#[tactic(auto, unfolding(crate::specs::References::ecore_name))]
pub(crate) fn ecore_name(text: &str) -> Option<&str>
    ensures { option_copied result ≡ ecore_name text.now }
{
    name_after(ecore::TYPES, text)
}

/// Whether a text names a type.
pub(crate) fn is_type_reference(own: &str, text: &str) -> bool
    ensures { result ≡ is_type_reference own.now text.now }
{
    ecore_name(text).is_some() || own_name(own, text).is_some()
}

/// The two texts, where each is a name.
fn if_names<'a>(class: &'a str, feature: &'a str) -> Option<(&'a str, &'a str)>
    ensures { option_map (λ p. (p.0.now, p.1.now)) result ≡ if_names class.now feature.now }
{
    if is_name(class) && is_name(feature) {
        Some((class, feature))
    } else {
        None
    }
}

fn two_names(text: &str) -> Option<(&str, &str)>
    ensures { option_map (λ p. (p.0.now, p.1.now)) result ≡ two_names text.now }
{
    match text.split_once('/') {
        None => None,
        Some((class, feature)) => if_names(class, feature),
    }
}

#[tactic(auto, unfolding(crate::specs::References::pair_after))]
fn pair_after<'a>(prefix: &str, text: &'a str) -> Option<(&'a str, &'a str)>
    ensures { option_map (λ p. (p.0.now, p.1.now)) result ≡ pair_after prefix.now text.now }
{
    match after_prefix(prefix, text) {
        None => None,
        Some(rest) => two_names(rest),
    }
}

/// The names of the class and of the feature that a reference names.
#[tactic(auto, unfolding(crate::specs::References::own_feature))]
pub(crate) fn own_feature<'a>(own: &str, text: &'a str) -> Option<(&'a str, &'a str)>
    ensures { option_map (λ p. (p.0.now, p.1.now)) result ≡ own_feature own.now text.now }
{
    if let Some(pair) = pair_after("//", text) {
        return Some(pair);
    }
    if let Some(pair) = pair_after("#//", text) {
        return Some(pair);
    }
    pair_after(own, text)
}
