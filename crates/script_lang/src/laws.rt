//! The law of lines: a function without a body, whose contract is the law.
ghost use Rattle.script_lang.specs.Spelling.{CommandsHaveLines, LinesAreRead, LinesAreSpelled};

/// The law of lines: a line is read as a command exactly where it spells the command, word by word. Each command that a
/// line can spell is spelled by the line of its words.
pub fn law_of_lines()
    ensures read { LinesAreRead }
    ensures spelled { LinesAreSpelled }
    ensures there { CommandsHaveLines }
{}
