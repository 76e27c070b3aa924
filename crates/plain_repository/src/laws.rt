//! The laws of the plain repository: each is a function without a body, whose contract is the law.
ghost use Rattle.model_state.specs.Good.{Good};
ghost use Rattle.state_form.specs.Spelled.{IsSpelled};
ghost use Rattle.plain_repository.specs.Laws.{StartsInOrder, StaysInOrder, AllIsInOrder, OfModels, OfVersions, HasIds, ModelsAreDefined, VersionsAreDefined, MetamodelsHold, HistoriesAreWhole, WorkspacesStand, HistoryOnlyGrows, StatesStay, BranchesAreNamed, TagsAreNamed, TagNamesDiffer, EventsAreOfOne, SomeAreOfNone, WorkspacesStayApart, ModelsStayApart, NumbersOnlyGrow, DroppedStayDropped, RefusalsMakeNone, DecidedCouldBe, LastLinesLook, DataLinesAreApart, EventsChange, CommitsAreStale, TextsStay, MetamodelsGrow, DocumentsBecome, UnsignedAreRefused, OldFormsAreRefused, UpgradesStay, NewVersionsAreSigned, SignedSinceUpgrade, OldStoresReadOn, UndoGivesBack, CommitsKeepModels, ShownByOwn, ShownApart};
ghost use Rattle.plain_repository.specs.EffectLaws.{InitsBegin, EditsLead, CheckoutsShowVersions, BeginsKeepModels, EndsKeepModels, EndsAreUndone, DiscardsGoBack, DropsTakeAway, CommitsKeepStates, BranchesKeepModels, BranchesStartAtBases, TagsNameVersions};
ghost use Rattle.plain_repository.specs.MergeLaws.{TidyingKeepsModels, UpdatesMerge, MergesMerge, MergesCount, RevertsTakeOut, UpdatesAreThreeWay, MergesAreThreeWay, UpdatesLoseNothing, MergesLoseNothing, UnaskedUpdatesLoseNothing, UnaskedMergesLoseNothing};
ghost use Rattle.plain_repository.specs.Standing.{InitsStand, CommitsStand, SignedStand, UpdatesStand, MergesStand, CheckoutsStand, BranchesStand, EditsStand, BeginsStand, EndsStand, UndosStand, DiscardsStand, TidiesStand, CompositesAreOne, MergedStayPending, MergesAreOnce, AllOthersStay};
ghost use Rattle.plain_repository.specs.Asked.{EventsAreAsked, CommitCommits, SignedCommits, CheckoutChecksOut, RepliesTellWhere};
ghost use Rattle.plain_repository.specs.Store.{EachStandsOrIsDamaged, StandsForOne, IsDamagedOnce, DamagedStandsForNone};

/// The law of order: all is in order in the empty repository, and each event that could be made keeps it so. The other laws are
/// about such a state, so a holder of one that keeps order has them all.
pub fn law_of_order()
    ensures start { StartsInOrder }
    ensures stays { StaysInOrder }
    ensures all { AllIsInOrder }
{}

/// The law of working models: the steps recorded in each workspace lead one by one from the state of its base to its
/// working model. It is good, and its elements have ids of the form of ids. Each id, number and value that steps name of it
/// has an encoding. And what holds of every metamodel holds of the one that is there after any events that could be made.
pub fn law_of_working_models()
    ensures defined { ModelsAreDefined }
    ensures good { OfModels Good }
    ensures ids { OfModels HasIds }
    ensures spelled { OfModels IsSpelled }
    ensures metamodel { MetamodelsHold }
{}

/// The law of versions: the operations on the path of each version lead one by one from the empty project to its
/// state. It is good, and its elements have ids of the form of ids. Each id, number and value that steps name of it has an
/// encoding. And each number in the history names something.
pub fn law_of_versions()
    ensures defined { VersionsAreDefined }
    ensures good { OfVersions Good }
    ensures ids { OfVersions HasIds }
    ensures spelled { OfVersions IsSpelled }
    ensures whole { HistoriesAreWhole }
{}

/// The law of growth: no event that could be made changes a version, a version's state, a tag, or a branch's name and
/// start. The base of each workspace is on the path of its branch's head.
pub fn law_of_growth()
    ensures grows { HistoryOnlyGrows }
    ensures states { StatesStay }
    ensures stand { WorkspacesStand }
{}

/// The law of names: the names of branches and of tags have the form of names, and a name is that of one branch and of one tag at
/// most. It finds that one.
pub fn law_of_names()
    ensures branches { BranchesAreNamed }
    ensures tags { TagsAreNamed }
    ensures differ { TagNamesDiffer }
{}

/// The law of workspaces apart: an event is of one workspace at most; Init, Checkout, Tag, Evolve and Upgrade are of none. An event of
/// another workspace leaves what is recorded in this one, and its model. The replies to `show`, `changes` and `validate` go by the
/// metamodel, the state of the base and what is recorded in the workspace. So such an event leaves them, where it leaves the
/// metamodel. No number of a workspace is used again.
pub fn law_of_workspaces_apart()
    ensures own { EventsAreOfOne }
    ensures others { SomeAreOfNone }
    ensures workspaces { WorkspacesStayApart }
    ensures models { ModelsStayApart }
    ensures shown { ShownByOwn }
    ensures replies { ShownApart }
    ensures numbers { NumbersOnlyGrow }
    ensures dropped { DroppedStayDropped }
{}

/// The law of events: a line whose reply is a refusal makes none. Each event that could be made changes something
/// beside the numbers that every event raises.
pub fn law_of_events()
    ensures none { RefusalsMakeNone }
    ensures change { EventsChange }
{}

/// The law of decisions: in a state in order, each event that a command is answered with could be made there. It is the one that the
/// command asked for, with the words of its line and the text of its block; a command that only shows makes none.
pub fn law_of_decisions()
    ensures could { DecidedCouldBe }
    ensures asked { EventsAreAsked }
{}

/// The law of effects: an Init brings the metamodel of its text and version 0 on `trunk`. An edit leads to the model that its operations
/// lead to from the working model. A checkout shows the state of its version. The beginning and the end of a composite and a new branch leave
/// the working model. A discard goes back to the state of the base, and one undo takes back a composite that was ended. A workspace
/// that is dropped is gone. The working model of a workspace that is committed is the state of the new version. A new branch is
/// found by its name, and its head is the workspace's base. The name of a new tag names its version.
pub fn law_of_effects()
    ensures inits { InitsBegin }
    ensures edits { EditsLead }
    ensures checkouts { CheckoutsShowVersions }
    ensures begins { BeginsKeepModels }
    ensures ends { EndsKeepModels }
    ensures composites { EndsAreUndone }
    ensures discards { DiscardsGoBack }
    ensures drops { DropsTakeAway }
    ensures commits { CommitsKeepStates }
    ensures models { BranchesKeepModels }
    ensures branches { BranchesStartAtBases }
    ensures tags { TagsNameVersions }
{}

/// The law of replies: the last line of a reply begins with `ok` or `no`. No data line begins so but those of
/// `validate`, which begin with ids. So where a reply ends is known by its lines, but for `validate`.
pub fn law_of_replies()
    ensures last { LastLinesLook }
    ensures lines { DataLinesAreApart }
{}

/// The law of commits, signed or not: one is refused as stale just where the base is not the head and no earlier refusal applies.
/// An unsigned one is refused just where the store is upgraded, a signed one just where it is not, and no earlier refusal applies.
/// One that is made leaves the working model.
pub fn law_of_commits()
    ensures stale { CommitsAreStale }
    ensures unsigned { UnsignedAreRefused }
    ensures old_forms { OldFormsAreRefused }
    ensures models { CommitsKeepModels }
{}

/// The law of metamodels that grow: an event leaves the metamodel or extends it to one that has all its parts, with their numbers.
/// An Evolve brings the metamodel of its text: neither lacks a part that the other has.
/// What `show`, `cat`, `changes` and `package` answer stays then, of all workspaces and versions.
pub fn law_of_metamodels()
    ensures grow { MetamodelsGrow }
    ensures texts { TextsStay }
    ensures document { DocumentsBecome }
{}

/// The law of signatures: a store that is upgraded stays so, and Upgrade alone upgrades one. Each version that an event behind
/// Upgrade makes has an author and a moment, and no other version has. Events without Upgrade and Signed could be made just where
/// they could be made if there were no signatures, so old stores read on.
pub fn law_of_signatures()
    ensures stays { UpgradesStay }
    ensures signed { NewVersionsAreSigned }
    ensures since { SignedSinceUpgrade }
    ensures old { OldStoresReadOn }
{}

/// The law of standing: where each event leaves a workspace, field by field, and what the version that a commit makes keeps. An Init
/// makes version 0 on `trunk`, with nothing in it. A commit,
/// signed or not, makes one version, of the workspace's branch, base, pending versions and operations, and of the author, moment and
/// message that are given; the workspace stands at it with nothing local. An update stands at the head, and a merge leaves the base and
/// makes the other version pending. A checkout stands at its version on its branch, and a new branch moves the workspace onto it.
/// Editing, composites, undo, discard and tidy leave where it stands. A composite is one operation of its name, with all steps
/// between its beginning and its end. A merge alone makes a version pending, each once, and commits and discards alone clear them.
/// `commit`, `signed` and `checkout` do so with the words of their lines, and replies say where the workspace then stands. All other
/// workspaces, versions, branches and tags stay as they were.
pub fn law_of_standing()
    ensures inits { InitsStand }
    ensures commits { CommitsStand }
    ensures signed { SignedStand }
    ensures updates { UpdatesStand }
    ensures merges { MergesStand }
    ensures checkouts { CheckoutsStand }
    ensures branches { BranchesStand }
    ensures edits { EditsStand }
    ensures begins { BeginsStand }
    ensures ends { EndsStand }
    ensures undos { UndosStand }
    ensures discards { DiscardsStand }
    ensures tidies { TidiesStand }
    ensures composites { CompositesAreOne }
    ensures merged { MergedStayPending }
    ensures once { MergesAreOnce }
    ensures commit { CommitCommits }
    ensures signed_commit { SignedCommits }
    ensures checkout { CheckoutChecksOut }
    ensures replies { RepliesTellWhere }
    ensures others { AllOthersStay }
{}

/// The law of undoing: an operation that is recorded where no composite is open, and undone, leaves the workspace as it
/// was.
pub fn law_of_undoing()
    ensures back { UndoGivesBack }
{}

/// The law of merging: tidying leaves the working model. An update and a merge lead to the merged model. That is what the choices
/// keep of theirs and then of mine, from the state where both begin. A merge counts the version as merged. A revert leads to what
/// the versions on the path but for the one that is reverted, and then the local operations, lead to.
pub fn law_of_merging()
    ensures tidying { TidyingKeepsModels }
    ensures updates { UpdatesMerge }
    ensures merges { MergesMerge }
    ensures counted { MergesCount }
    ensures reverts { RevertsTakeOut }
{}

/// The law of the three-way merge: an update makes of the working model the three-way merge of it and the head's state over the state
/// of the old base. So does a merge, over the state where it begins. At each cell the model has what the side that changed it has
/// there, and else what it had. What is kept of a side stays as the side has it. Where the letters drop something, it has what the
/// other side has. Without a conflict, so where no letters are given, nothing is lost: what one side made or set is there, and what
/// neither touched is as it was.
pub fn law_of_three_way()
    ensures updates { UpdatesAreThreeWay }
    ensures merges { MergesAreThreeWay }
    ensures updates_lose_nothing { UpdatesLoseNothing }
    ensures merges_lose_nothing { MergesLoseNothing }
    ensures updates_unasked { UnaskedUpdatesLoseNothing }
    ensures merges_unasked { UnaskedMergesLoseNothing }
{}

/// The law of stores: each file of bytes stands for a list of events, or is damaged at an offset. It stands for one list
/// at most. It is damaged at one offset at most, and then it stands for none.
pub fn law_of_stores()
    ensures either { EachStandsOrIsDamaged }
    ensures meaning { StandsForOne }
    ensures offset { IsDamagedOnce }
    ensures none { DamagedStandsForNone }
{}
