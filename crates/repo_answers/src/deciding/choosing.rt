//! What is answered where theirs and mine conflict.
ghost use Rattle.std.specs.Prelude.{◌≡◌, [], IfOk, IfNone, IfSome, true, unwrap_or};
ghost use Rattle.shown_lines.specs.Buckets.{HaveNumbers};
ghost use Rattle.plain_repository.specs.Answers as plain;
ghost use Rattle.plain_repository.specs.Choices.{chosen};
ghost use Rattle.merge_laws.specs.Choices.{are_choices};
ghost use Rattle.plain_repository.specs.State.{State};
ghost use Rattle.repo_answers.specs.Decisions.{plain_decision, CanMakeIt};

use crate::deciding::answers::{Decision, refuse, refuse_with};
use data_lines::bucket_lines;
use footprint::Buckets;
use merge_plans::are_choices;
use script_lang::Refusal;
use std::alloc::{AllocError, Global};
use texts::Text;

/// A text that may be left out, as the text or the empty one.
pub(crate) fn text_or_empty(alloc: Global, text: &Option<Text>) -> Result<Text, AllocError>
    ensures { IfOk result (λ t. t ≡ unwrap_or text.now []) }
{
    match text {
        None => Text::new(alloc, ""),
        Some(text) => text.copy(alloc),
    }
}

/// The refusal where the choices don't fit the buckets, or where there are buckets and no choices.
#[tactic(auto, unfolding(shown_lines::specs::Buckets::bucket_lines))]
pub(crate) fn refused_choices(
    alloc: Global,
    buckets: &Buckets,
    choices: &Option<Text>,
) -> Result<Option<Decision>, AllocError>
    requires places { HaveNumbers buckets.now }
    ensures refused { IfOk result (λ found. IfSome found (λ d. (otherwise : plain.Decision) → plain_decision d ≡ chosen buckets.now.rows choices.now otherwise)) }
    ensures made { IfOk result (λ found. IfSome found (λ d. (s : State) → CanMakeIt s d.made)) }
    ensures passed { IfOk result (λ found. IfNone found ((otherwise : plain.Decision) → chosen buckets.now.rows choices.now otherwise ≡ otherwise)) }
    ensures fit { IfOk result (λ found. IfNone found (are_choices (unwrap_or choices.now []) buckets.now.rows ≡ true)) }
{
    let rows = buckets.rows.as_slice();
    match choices {
        None => {
            if rows.is_empty() {
                return Ok(None);
            }
            let lines = bucket_lines(alloc, buckets)?;
            Ok(Some(refuse_with(
                lines,
                Refusal::Conflicts {
                    buckets: rows.len() as u64,
                },
            )))
        }
        Some(letters) => {
            if are_choices(letters.as_str(), rows) {
                return Ok(None);
            }
            Ok(Some(refuse(
                alloc,
                Refusal::BadChoice {
                    want: rows.len() as u64,
                    got: letters.as_str().len() as u64,
                },
            )))
        }
    }
}
