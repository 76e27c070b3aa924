//! The words of the command line.
ghost use Rattle.std.specs.Prelude.{◌≡◌, ◌≢◌, ◌<◌, ◌≤◌, ◌^◌, ℕ, [], ◌∷◌, codes, map, string_bytes, IfSome, IfNone};
ghost use Rattle.std.specs.Char.{is_ascii_digit};
ghost use Rattle.std.specs.Fmt.{decimal};
ghost use Rattle.std.specs.List.{list_all};
ghost use Rattle.script_items.specs.Words.{AskFor, AreBad, AreNumbers, is_numeral};

/// The most rounds of a script that is generated.
const MOST_ROUNDS: u64 = 10_000;

/// What the words ask for.
#[derive(Clone, Copy)]
pub enum Request {
    /// The lines of the input are answered.
    Serve,
    /// The store is opened, and a line says what there is.
    Check,
    /// A script of so many rounds is generated and answered, and a line says what came of it.
    Generate { seed: u64, count: u32 },
}

/// What the words ask for, where they are of a form.
pub fn request_of(words: &[String]) -> Option<Request>
    ensures asked { IfSome result (λ r. AskFor (map string_bytes words.now) r) }
    ensures bad { IfNone result (AreBad (map string_bytes words.now)) }
{
    match words {
        [] => Some(Request::Serve),
        [word] => check_of(word.as_str()),
        [word, numbers] => generate_of(word.as_str(), numbers.as_str()),
        _ => None,
    }
}

fn check_of(word: &str) -> Option<Request>
    ensures asked { IfSome result (λ r. AskFor (word.now ∷ []) r) }
    ensures bad { IfNone result (AreBad (word.now ∷ [])) }
{
    if word == "--check" {
        return Some(Request::Check);
    }
    None
}

fn generate_of(word: &str, numbers: &str) -> Option<Request>
    ensures asked { IfSome result (λ r. AskFor (word.now ∷ numbers.now ∷ []) r) }
    ensures bad { IfNone result (AreBad (word.now ∷ numbers.now ∷ [])) }
{
    if word != "--generate" {
        return None;
    }
    let (seed, count) = numbers_of(numbers)?;
    Some(Request::Generate { seed, count })
}

/// A seed and a count of rounds, with a colon between.
fn numbers_of(numbers: &str) -> Option<(u64, u32)>
    ensures asked { IfSome result (λ n. AreNumbers numbers.now n.0 n.1) }
    ensures bad { IfNone result ((seed count : ℕ) → AreNumbers numbers.now seed count → ⊥) }
{
    let (seed, count) = numbers.split_once(':')?;
    let seed = number_of(seed)?;
    let count = number_of(count)?;
    if count == 0 || count > MOST_ROUNDS {
        return None;
    }
    Some((seed, count as u32))
}

/// The number that a word is, in decimal and without needless zeros.
fn number_of(word: &str) -> Option<u64>
    ensures number { IfSome result (λ n. word.now ≡ decimal n) }
    ensures none { IfNone result ((n : ℕ) → n < 2 ^ 64 → word.now ≢ decimal n) }
{
    if !is_numeral(word.as_bytes()) {
        return None;
    }
    match word.parse::<u64>() {
        Ok(number) => Some(number),
        Err(_) => None,
    }
}

fn is_numeral(word: &[u8]) -> bool
    ensures { result ≡ is_numeral word.now }
{
    !word.is_empty() && (word.len() == 1 || word[0] != b'0') && are_digits(word)
}

fn are_digits(bytes: &[u8]) -> bool
    ensures { result ≡ list_all is_ascii_digit bytes.now }
{
    bytes.iter().all(|byte| byte.is_ascii_digit())
}
