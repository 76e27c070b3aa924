//! What may refuse a line before it is answered.
ghost use Rattle.std.specs.Prelude.{◌≡◌, ℕ, List, Option, None, IfOk};
ghost use Rattle.std.specs.Option.{option_map};
ghost use Rattle.plain_repository.specs.State.{State};

use repo_state::Repo;
use std::alloc::{AllocError, Global};

/// What stands between the input and the repository: it may refuse a line, by the line and the repository.
pub trait Gate {
    /// The reply that refuses a line, where it is refused.
    ghost refusal: { Self → State → List ℕ → Option (List ℕ) };

    /// The bytes of the reply that refuses the line, or `None` where it is let in.
    fn refusal_of(
        &self,
        alloc: Global,
        repo: &Repo,
        line: &str,
    ) -> Result<Option<Vec<u8>>, AllocError>
        ensures { IfOk result (λ reply. option_map (λ bytes. bytes.items) reply ≡ refusal self.now repo.now line.now) };
}

/// A gate that lets each line in.
#[derive(Clone, Copy)]
pub struct Unguarded;

impl Gate for Unguarded {
    ghost refusal = { λ _ _ _. None };

    fn refusal_of(
        &self,
        _alloc: Global,
        _repo: &Repo,
        _line: &str,
    ) -> Result<Option<Vec<u8>>, AllocError> {
        Ok(None)
    }
}
