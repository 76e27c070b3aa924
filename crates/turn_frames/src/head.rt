//! The head of a frame.
ghost use Rattle.std.specs.Prelude.{◌≡◌, ◌+◌, ◌^◌, IfSome, IfNone, Some, None};
ghost use Rattle.std.specs.Char.{is_ascii_digit};
ghost use Rattle.std.specs.List.{list_all};
ghost use Rattle.script_lang.specs.Words.{is_numeral, number_below};
ghost use Rattle.turn_frames.specs.Turns.{head_of, most_turn_bytes};

use model_state::is_name;

/// The most bytes of a turn.
const MOST_TURN_BYTES: u32 = 16_777_216;

/// The number that a word is, in decimal and without needless zeros.
#[tactic(auto, unfolding(script_lang::specs::Words::number_below))]
fn number_of(word: &str) -> Option<u32>
    ensures { result ≡ number_below (2 ^ 32) word.now }
{
    if !is_numeral(word.as_bytes()) {
        return None;
    }
    match word.parse::<u32>() {
        Ok(number) => Some(number),
        Err(_) => None,
    }
}

fn is_numeral(word: &[u8]) -> bool
    ensures { result ≡ is_numeral word.now }
{
    !word.is_empty() && (word.len() == 1 || word[0] != b'0') && are_digits(word)
}

fn are_digits(bytes: &[u8]) -> bool
    ensures { result ≡ list_all is_ascii_digit bytes.now }
{
    bytes.iter().all(|byte| byte.is_ascii_digit())
}

/// The number of bytes that a word says, where a turn may have so many.
fn count_of(word: &str) -> Option<u32>
    ensures { result ≡ number_below (most_turn_bytes + 1) word.now }
{
    match number_of(word) {
        Some(count) => {
            if count <= MOST_TURN_BYTES {
                Some(count)
            } else {
                None
            }
        }
        None => None,
    }
}

/// Whose script the line of a head says that follows, and how many bytes it has.
fn head_of_text(line: &str) -> Option<(&str, u32)>
    ensures some { IfSome result (λ head. head_of line.now ≡ Some (record { user = head.0.now; count = head.1 })) }
    ensures none { IfNone result (head_of line.now ≡ None) }
{
    let (user, word) = line.split_once(' ')?;
    if !is_name(user) {
        return None;
    }
    let count = count_of(word)?;
    Some((user, count))
}

/// The same of a line's bytes.
pub(crate) fn head_of(line: &[u8]) -> Option<(&str, u32)>
    ensures some { IfSome result (λ head. head_of line.now ≡ Some (record { user = head.0.now; count = head.1 })) }
    ensures none { IfNone result (head_of line.now ≡ None) }
{
    match std::str::from_utf8(line) {
        Ok(text) => head_of_text(text),
        Err(_) => None,
    }
}
