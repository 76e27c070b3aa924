//! A line of words and numbers.
ghost use Rattle.std.specs.Prelude.{◌≡◌, ◌++◌, OnOk, string_bytes};
ghost use Rattle.std.specs.Fmt.{decimal};

use std::alloc::{AllocError, Global};

/// A word and a number more, at the end of a line.
pub fn push_count(
    alloc: Global,
    line: &mut String,
    word: &str,
    number: u64,
) -> Result<(), AllocError>
    ensures { OnOk result (string_bytes line.new ≡ string_bytes line.old ++ (word.now ++ decimal number)) }
{
    line.push_str(word)?;
    let digits = format!(in alloc; "{number}")?;
    line.push_str(digits.as_str())
}
