//! The numbers that were used last.
ghost use Rattle.std.specs.Prelude.{◌≡◌, ◌⊎◌, ◌↔◌, ◌<◌, ◌≤◌, ◌+◌, ◌++◌, [], ℕ, Some, IfOk, OnErr, IsSome, IsTrue, length, not, nat_eq, option_to_list};
ghost use Rattle.std.specs.List.{Contains, filter};
ghost use Rattle.std.specs.Vec.{vec_capacity, vec_len};
ghost use Rattle.recently_used.specs.Recent.{most_recent, used};

use std::alloc::{AllocError, Global};
use std::marker::Model;

/// How many numbers stay at most.
const MOST_RECENT: usize = 64;

/// Numbers, the one that was used last at the end.
#[derive(Drop)]
pub struct Recent {
    numbers: Vec<usize>,
}

impl Model for Recent {
    ghost use Rattle.std.specs.Prelude.{◌≤◌, List, ℕ, length};
    ghost use Rattle.recently_used.specs.Recent.{most_recent};

    ghost Value = { List ℕ };

    ghost view = { λ r. r.numbers.items };

    ghost invariant = { λ r. length r.numbers.items ≤ most_recent };
}

/// Takes a number out, where it is there. This takes no memory.
fn without(numbers: &mut Vec<usize>, number: usize)
    ensures items { numbers.new.items ≡ filter (λ n. not (nat_eq n number)) numbers.old.items }
    ensures len { vec_len numbers.new ≤ vec_len numbers.old }
    ensures capacity { vec_capacity numbers.new ≡ vec_capacity numbers.old }
{
    numbers.retain(|n| *n != number);
}

/// Takes the first number out, where there is one too many.
fn shorten(numbers: &mut Vec<usize>) -> Option<usize>
    requires most { length numbers.old.items ≤ most_recent + 1 }
    ensures rest { option_to_list result ++ numbers.new.items ≡ numbers.old.items }
    ensures few { length numbers.new.items ≤ most_recent }
    ensures full { IsSome result → most_recent < length numbers.old.items }
{
    if numbers.len() <= MOST_RECENT {
        return None;
    }
    Some(numbers.remove(0))
}

impl Recent {
    /// No number was used.
    pub fn new(alloc: Global) -> Recent
        ensures { result ≡ [] }
    {
        Recent {
            numbers: Vec::new(alloc),
        }
    }

    /// Whether the number is among those that were used last.
    pub fn has(&self, number: usize) -> bool
        ensures { IsTrue result ↔ Contains self.now number }
    {
        self.numbers.contains(&number)
    }

    /// The number is used now. Gives the one that was used least recently, where it doesn't stay.
    pub fn note(&mut self, number: usize) -> Result<Option<usize>, AllocError>
        ensures used { IfOk result (λ out. option_to_list out ++ self.new ≡ used number self.old) }
        ensures full { IfOk result (λ out. IsSome out → most_recent ≤ length self.old) }
        // So each number that was there is there, but for that one.
        ensures stays { IfOk result (λ out. (n : ℕ) → Contains self.old n → Contains self.new n ⊎ (out ≡ Some n)) }
        ensures same { OnErr result (self.new ≡ self.old) }
    {
        self.numbers.reserve(1)?;
        without(&mut self.numbers, number);
        self.numbers.push_reserved(number);
        Ok(shorten(&mut self.numbers))
    }
}
