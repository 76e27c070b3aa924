//! Where the words are answered: over the store, or beside whoever has it.
ghost use Rattle.std.specs.Prelude.{◌≡◌, ◌<◌, drop, length, map, string_bytes, Ok, false};
ghost use Rattle.std.specs.Bool.{OnTrue};
ghost use Rattle.emftools.specs.Roads.{may_stand_beside, are_beside};

use system_port::WordsFault;

/// Where the words are answered.
#[derive(Drop)]
pub(crate) enum Road {
    /// Over the store, under its lock.
    Store(Result<Vec<String>, WordsFault>),
    /// Beside whoever has the store.
    Beside(Vec<String>),
}

/// Whether a form may stand after the word `beside`.
fn may_stand_beside(name: &str) -> bool
    ensures { result ≡ may_stand_beside name.now }
{
    name == "query" || name == "blame" || name == "replay"
}

/// Whether the words are `beside` and a form that may stand after it.
fn are_beside(words: &[String]) -> bool
    ensures beside { result ≡ are_beside (map string_bytes words.now) }
    ensures some { OnTrue result (0 < length words.now) }
{
    match words {
        [first, second, ..] => first.as_str() == "beside" && may_stand_beside(second.as_str()),
        _ => false,
    }
}

/// The words after the first.
fn after_first(mut words: Vec<String>) -> Vec<String>
    requires some { 0 < length words.items }
    ensures rest { result.items ≡ drop 1 words.items }
{
    let _first = words.remove(0);
    words
}

/// Where the words are answered. Those that begin with `beside` and a form that may stand after it are answered beside whoever has the
/// store, without that word.
pub(crate) fn road_of(words: Result<Vec<String>, WordsFault>) -> Road
    ensures store { (given : _) → result ≡ Road.Store given → given ≡ words }
    ensures over { (texts : _) → words ≡ Ok texts → are_beside (map string_bytes texts.items) ≡ false → result ≡ Road.Store (Ok texts) }
    ensures beside { (texts : _) → words ≡ Ok texts → (rest : _) → result ≡ Road.Beside rest → rest.items ≡ drop 1 texts.items }
{
    match words {
        Ok(words) if are_beside(&words) => Road::Beside(after_first(words)),
        given => Road::Store(given),
    }
}
