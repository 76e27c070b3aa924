//! The laws of turns and of marks: functions without a body, whose contracts are the laws.
ghost use Rattle.store_turns.specs.Marks.{GuardsSayLines, MarksAreFound, RefusalsAreLines, RepliesAreLines, TurnsAreLines};
ghost use Rattle.store_turns.specs.Laws.{AuthorsAreUsers, BranchersMay, DeniedMakeNone, GuardsRefuseFirst, InputsAreRuns, OthersPass, RunsAreGuards, TurnsAreRuns};

/// The law of turns: many users over one process are no more than their runs behind guards, one after the other, each over the store that the
/// one before left. After each stand what is said of a fault of its script, and an empty line. Rules 5 and 6 come after those of a guard.
pub fn law_of_turns()
    ensures turns { TurnsAreRuns }
    ensures inputs { InputsAreRuns }
    ensures rules { GuardsRefuseFirst }
    ensures guards { RunsAreGuards }
    ensures denied { DeniedMakeNone }
    ensures authors { AuthorsAreUsers }
    ensures branches { BranchersMay }
    ensures others { OthersPass }
{}

/// The law of marks: where the replies of a turn's run are lines, none of them empty, its text is these lines and what is said of a fault, and then
/// an empty line; and the first empty line is that one, whatever comes after. Refusals are such lines, and so is what a guard says.
pub fn law_of_marks()
    ensures refusals { RefusalsAreLines }
    ensures replies { RepliesAreLines }
    ensures guards { GuardsSayLines }
    ensures turns { TurnsAreLines }
    ensures found { MarksAreFound }
{}
