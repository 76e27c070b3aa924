//! The syntax of names of branches, tags and composites.
ghost use Rattle.std.specs.Prelude.{◌≡◌};
ghost use Rattle.std.specs.List.{list_all};
ghost use Rattle.model_state.specs.Names.{is_name, is_name_byte};

/// The most bytes after a name's first.
const MOST_NAME_REST: usize = 63;

/// Whether a text is a name of a branch, a tag or a composite. It is a letter, and at most 63 letters, digits, `_`, `.`
/// or `-` after it, all ASCII.
pub fn is_name(text: &str) -> bool
    ensures form { result ≡ is_name text.now }
{
    match text.as_bytes() {
        [] => false,
        [first, rest @ ..] => {
            first.is_ascii_alphabetic() && rest.len() <= MOST_NAME_REST && are_name_bytes(rest)
        }
    }
}

fn are_name_bytes(bytes: &[u8]) -> bool
    ensures { result ≡ list_all is_name_byte bytes.now }
{
    bytes.iter().all(|byte| {
        byte.is_ascii_alphanumeric() || *byte == b'_' || *byte == b'.' || *byte == b'-'
    })
}
