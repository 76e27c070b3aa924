//! Bytes as a table spells them: `\n`, `\r`, `\0`, and `\x` with two digits, as in Rust; all else stands for itself.
ghost use Rattle.std.specs.Prelude.{◌<◌};

use std::alloc::Global;
use std::test::Fail;

// The byte that stands after a `\`, and how many letters spell it.
fn escaped(spelled: &str) -> (u8, usize) {
    match spelled.as_bytes() {
        [b'n', ..] => (b'\n', 1),
        [b'r', ..] => (b'\r', 1),
        [b'x', high, low, ..] => (16 * digit(*high) + digit(*low), 3),
        _ => (0, 1),
    }
}

fn digit(letter: u8) -> u8
    ensures { result < 16 }
{
    match letter {
        b'0'..=b'9' => letter - b'0',
        b'a'..=b'f' => letter - b'a' + 10,
        _ => 0,
    }
}

pub(crate) fn bytes_of(alloc: Global, spelled: &str) -> Result<Vec<u8>, Fail> {
    let mut parts = spelled.split('\\');
    let mut bytes = parts.next().unwrap_or("").as_bytes().to_vec(alloc)?;
    for part in parts {
        let (byte, letters) = escaped(part);
        bytes.push(byte)?;
        bytes.extend_from_slice(part.get(letters..).unwrap_or("").as_bytes())?;
    }
    Ok(bytes)
}
