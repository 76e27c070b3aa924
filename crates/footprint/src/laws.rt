//! The laws of cells, of interference, and of operations that don't interfere. A law is the contract of a function that does nothing.
ghost use Rattle.footprint.specs.Laws.{StepLeavesOthers, OperationLeavesOthers, PackageLeavesOthers, StatesAreTheirCells, StepGoesByCells, OthersLeaveSame, InterferenceIsSymmetric, InterferenceIsOfCells, InterferenceIsExact, InterferenceHasACell, OperationsExchange, PackagesExchange, PackagesSideBySide};

/// A step leaves each cell that it doesn't write, and so do an operation and a package. No cell is missing: states that agree at each are equal.
pub fn law_of_writes()
    ensures step { StepLeavesOthers }
    ensures operation { OperationLeavesOthers }
    ensures package { PackageLeavesOthers }
    ensures whole { StatesAreTheirCells }
{}

/// Whether a step of an operation can be taken, and what it does, go by two things. They are the operation's cells, and
/// all that hangs on an element whose class it writes. Take two states that are the same for the operation. In both it
/// meets the same fault or none, writes the same, and leaves states that are the same for it.
pub fn law_of_reads()
    ensures { StepGoesByCells }
{}

/// An operation leaves the cells of another that it doesn't interfere with. So the state before it and the one after it
/// are the same for the other.
pub fn law_of_disjoint_cells()
    ensures { OthersLeaveSame }
{}

/// Two operations interfere, whichever is named first, exactly where a cell that one writes is written or read by the other.
pub fn law_of_interference()
    ensures symmetric { InterferenceIsSymmetric }
    ensures cells { InterferenceIsOfCells }
    ensures exact { InterferenceIsExact }
    ensures cell { InterferenceHasACell }
{}

/// Two operations that don't interfere commute, and so do packages without an interfering pair. Where two such packages
/// can both be applied to a model, each can be applied after the other, with one result.
pub fn law_of_exchange()
    ensures operations { OperationsExchange }
    ensures packages { PackagesExchange }
    ensures side_by_side { PackagesSideBySide }
{}
