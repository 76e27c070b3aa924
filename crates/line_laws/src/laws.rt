//! The law of columns: a function without a body, whose contract is the law.
ghost use Rattle.line_laws.specs.Columns.{ColumnsAreFirst, SameLinesAreRefusedAlike};

/// The law of columns. A line that spells no command is refused at the first word that doesn't fit. The words before it
/// are those of some command's line, and no command's line has that word after them. Just one column of a line is such.
/// Where a word is missing, the line ends before the column, and only the line itself is the same through it.
pub fn law_of_columns()
    ensures first { ColumnsAreFirst }
    ensures alike { SameLinesAreRefusedAlike }
{}
