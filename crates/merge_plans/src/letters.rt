//! Choices as they are written: a letter a bucket.
ghost use Rattle.std.specs.Prelude.{◌≡◌, IfOk, map};
ghost use Rattle.std.specs.List.{list_all};
ghost use Rattle.merge_laws.specs.Choices.{are_choices, is_choice, side_of};

use footprint::Bucket;
use merge_laws::Side;
use std::alloc::{AllocError, Global};

fn is_choice(letter: u8) -> bool
    ensures { result ≡ is_choice letter }
{
    letter == b'm' || letter == b't'
}

/// The side that a letter keeps: mine for `m`, theirs for `t`.
fn side_of(letter: u8) -> Side
    ensures { result ≡ side_of letter }
{
    if letter == b'm' {
        Side::Mine
    } else {
        Side::Theirs
    }
}

fn each_is_choice(letters: &[u8]) -> bool
    ensures { result ≡ list_all is_choice letters.now }
{
    letters.iter().all(|letter| is_choice(*letter))
}

/// Whether there is a letter `m` or `t` for each bucket, and no other byte.
pub fn are_choices(letters: &str, rows: &[Bucket]) -> bool
    ensures { result ≡ are_choices letters.now rows.now }
{
    letters.len() == rows.len() && each_is_choice(letters.as_bytes())
}

/// The sides that letters keep, in their order.
pub(crate) fn sides_of(alloc: Global, letters: &str) -> Result<Vec<Side>, AllocError>
    ensures { IfOk result (λ sides. sides.items ≡ map side_of letters.now) }
{
    let mut sides = Vec::new(alloc);
    for letter in letters.as_bytes() {
        sides.push(side_of(*letter))?;
    }
    Ok(sides)
}
