//! The law of shown lines: a function without a body, whose contract is the law.
ghost use Rattle.mark_lines.specs.Shown.{BucketsAreLines, JsonIsWhole, LogsAreLines, OpenAreLines, OperationsAreLines, PackagesAreLines, ShortagesAreLines, TextsAreLines};

/// The law of shown lines: JSON has no line feed, and where names and ids have none, `log`, `changes`, `package` and `validate` show lines that
/// aren't empty. So are the text of a model and the lines of operations in conflict, whatever they hold.
pub fn law_of_shown_lines()
    ensures json { JsonIsWhole }
    ensures log { LogsAreLines }
    ensures operations { OperationsAreLines }
    ensures composites { OpenAreLines }
    ensures packages { PackagesAreLines }
    ensures shortages { ShortagesAreLines }
    ensures buckets { BucketsAreLines }
    ensures texts { TextsAreLines }
{}
