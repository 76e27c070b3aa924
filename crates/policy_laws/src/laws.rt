//! The laws of policies: each is a function without a body, whose contract is the law.
ghost use Rattle.policy_laws.specs.Tables.{TablesAreRight};
ghost use Rattle.policy_laws.specs.Behind.{GuardsAnswerSo};
ghost use Rattle.policy_laws.specs.Roles.{ReadersCheckOut, ReadersOnlyOpen, WritersOfOneWork, WritersOfOneStay};
ghost use Rattle.policy_laws.specs.Roles.{WritersKeepCommon, StrangersMakeNone, AdminsPass, LookingPassesForAll, KeepingIsAdmins};
ghost use Rattle.policy_laws.specs.Denied.{DeniedAreRefused, OthersAreAnswered, DeniedLeaveNoTrace};

/// The law of what policies keep. The tables of kinds and of workspaces are right: each event that a command makes is a checkout
/// where the command looks, and one of the workspace that it names, which is there, where it works. So the lines of a reader open
/// workspaces and change nothing else. Those of a writer of one branch leave the metamodel, the signing of versions, the tags, and the
/// heads and the workspaces of all other branches, and each new version is on that branch. Those of a writer leave the first three.
/// What looks passes for each user who has a role, and all passes for an admin; `init`, `evolve`, `tag` and `upgrade` for no other. A line that is denied is answered by its rule alone,
/// and the others as if it were not there.
pub fn law_of_policy_effects()
    ensures tables { TablesAreRight }
    ensures tool { GuardsAnswerSo }
    ensures readers { ReadersCheckOut }
    ensures open { ReadersOnlyOpen }
    ensures writers { WritersOfOneWork }
    ensures stay { WritersOfOneStay }
    ensures common { WritersKeepCommon }
    ensures strangers { StrangersMakeNone }
    ensures admins { AdminsPass }
    ensures looking { LookingPassesForAll }
    ensures keeping { KeepingIsAdmins }
    ensures denied { DeniedAreRefused }
    ensures others { OthersAreAnswered }
    ensures trace { DeniedLeaveNoTrace }
{}
