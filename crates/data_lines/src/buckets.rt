//! The lines of buckets.
ghost use Rattle.std.specs.Prelude.{◌≡◌, ◌++◌, ◌∷◌, [], All, IfOk, OnOk};
ghost use Rattle.shown_lines.specs.Buckets.{HasNumber, HasNumbers, HaveNumbers, bucket_line, bucket_lines, numbers};
ghost use Rattle.shown_lines.specs.Lines.{after_spaces};
ghost use Rattle.shown_lines.specs.Versions.{listed};

use crate::line::Line;
use crate::versions::push_list;
use footprint::{Bucket, Buckets};
use std::alloc::{AllocError, Global};
use texts::{List, Text};

/// The lines of buckets: for each `bucket N theirs LIST mine LIST`, with N from 1. A LIST is the numbers of the bucket's operations of that
/// side, from 1, with commas between them. A position counts from 0, so each is to be less than the last number of 64 bits.
#[tactic(auto, unfolding(shown_lines::specs::Buckets::bucket_lines))]
pub fn bucket_lines(alloc: Global, buckets: &Buckets) -> Result<List<Text>, AllocError>
    requires numbers { HaveNumbers buckets.now }
    ensures lines { IfOk result (λ lines. lines ≡ bucket_lines buckets.now) }
{
    let mut lines = List::new(alloc);
    for (n, bucket) in buckets.rows.as_slice().iter().enumerate() {
        lines.push(bucket_line(alloc, n as u64 + 1, bucket)?)?;
    }
    Ok(lines)
}

fn bucket_line(alloc: Global, n: u64, bucket: &Bucket) -> Result<Text, AllocError>
    requires { HasNumbers bucket.now }
    ensures { IfOk result (λ t. t ≡ bucket_line n bucket.now) }
{
    let theirs = numbers_of(alloc, bucket.theirs.as_slice())?;
    let mine = numbers_of(alloc, bucket.mine.as_slice())?;
    let mut line = Line::new(alloc);
    line.push("bucket")?;
    line.push_number(n)?;
    line.push_word("theirs")?;
    push_list(&mut line, theirs.as_slice())?;
    line.push_word("mine")?;
    push_list(&mut line, mine.as_slice())?;
    line.into_text()
}

/// The numbers of operations in decimal, by their positions.
fn numbers_of(alloc: Global, places: &[u64]) -> Result<List<Text>, AllocError>
    requires { All HasNumber places.now }
    ensures { IfOk result (λ texts. texts ≡ numbers places.now) }
{
    let mut texts = List::new(alloc);
    for place in places {
        let number = *place + 1;
        let digits = format!(in alloc; "{number}")?;
        texts.push(Text::new(alloc, digits.as_str())?)?;
    }
    Ok(texts)
}
