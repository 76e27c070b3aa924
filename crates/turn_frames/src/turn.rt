//! A turn, and what bytes begin with.
ghost use Rattle.std.specs.Prelude.{◌≡◌, ◌≢◌, ◌<◌, ◌≤◌, ℕ, length, slice_index, IfOk, IfSome, IfNone};
ghost use Rattle.turn_frames.specs.Reads.{LooksLike};

use crate::head::head_of;
use std::alloc::{AllocError, Global};
use std::marker::Model;
use texts::Text;

/// The most bytes of a head's line: a name of 64, a space and 8 digits.
const MOST_HEAD: usize = 73;

/// A user, and the bytes of a script of the user's.
#[derive(Drop)]
pub struct Turn {
    user: Text,
    bytes: Vec<u8>,
}

impl Model for Turn {
    ghost use Rattle.turn_frames.specs.Turns as turns;

    ghost Value = { turns.Turn };

    ghost view = { λ t. record { user = t.user; bytes = t.bytes.items } };
}

impl Turn {
    /// The user, and the bytes of the user's script.
    pub fn into_parts(self) -> (Text, Vec<u8>)
        ensures user { result.0 ≡ self.user }
        ensures bytes { result.1.items ≡ self.bytes }
    {
        (self.user, self.bytes)
    }
}

/// What the bytes at hand begin with.
#[derive(Drop)]
pub(crate) enum Front {
    /// A whole frame, of this turn and of so many bytes.
    Whole { turn: Turn, size: usize },
    /// A part of a frame, or nothing: it may become one.
    Part,
    /// No frame, whatever comes after them.
    Broken,
}

/// The turn of a user and bytes.
fn turn_of(alloc: Global, user: &str, bytes: &[u8]) -> Result<Turn, AllocError>
    ensures { IfOk result (λ turn. turn ≡ record { user = user.now; bytes = bytes.now }) }
{
    let user = Text::new(alloc, user)?;
    let mut copy = Vec::new(alloc);
    copy.extend_from_slice(bytes)?;
    Ok(Turn { user, bytes: copy })
}

/// Where the first line feed stands among so many bytes.
fn feed_at(bytes: &[u8], most: usize) -> Option<usize>
    requires most { most ≤ length bytes.now }
    ensures found { IfSome result (λ i. (i < most) × (slice_index bytes.now i ≡ 10) × ((k : ℕ) → k < i → slice_index bytes.now k ≢ 10)) }
    ensures none { IfNone result ((k : ℕ) → k < most → slice_index bytes.now k ≢ 10) }
{
    for i in 0..most {
        if bytes[i] == b'\n' {
            return Some(i);
        }
    }
    None
}

/// Whether the bytes at hand begin with a frame.
pub(crate) fn look(alloc: Global, bytes: &[u8]) -> Result<Front, AllocError>
    ensures { IfOk result (λ look. LooksLike look bytes.now) }
{
    match feed_at(bytes, bytes.len().min(MOST_HEAD + 1)) {
        None => {
            if bytes.len() > MOST_HEAD {
                Ok(Front::Broken)
            } else {
                Ok(Front::Part)
            }
        }
        Some(at) => match head_of(&bytes[..at]) {
            None => Ok(Front::Broken),
            Some((user, count)) => {
                let rest = &bytes[at + 1..];
                let count = count as usize;
                if rest.len() < count {
                    Ok(Front::Part)
                } else {
                    let turn = turn_of(alloc, user, &rest[..count])?;
                    Ok(Front::Whole {
                        turn,
                        size: at + 1 + count,
                    })
                }
            }
        },
    }
}
