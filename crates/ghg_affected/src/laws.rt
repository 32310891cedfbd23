//! Laws of what a change of the data affects.

ghost use Rattle.ghg_affected.specs.Closed.{InputsAreNodes};
ghost use Rattle.ghg_affected.specs.Counts.{AffectedNodesStandOnce, NodesStandOnce};
ghost use Rattle.ghg_affected.specs.Dependence.{FormulasDependOnReads, UntouchedAreUnchanged};
ghost use Rattle.ghg_affected.specs.Patches.{AffectedNodesAreListed, BreaksAreAffected, OverflowsAreInPatches, UnaffectedKeep};

/// The affected nodes that are listed are all of them, and no other is listed.
pub fn affected_nodes_are_listed()
    ensures { AffectedNodesAreListed }
{}

/// No node is listed twice.
pub fn nodes_stand_once()
    ensures { NodesStandOnce }
{}

/// No affected node is listed twice.
pub fn affected_nodes_stand_once()
    ensures { AffectedNodesStandOnce }
{}

/// A node of a workbook that is not affected was a node before, and keeps its outcome.
pub fn unaffected_keep()
    ensures { UnaffectedKeep }
{}

/// Where nothing was over, each node that breaks is affected.
pub fn breaks_are_affected()
    ensures { BreaksAreAffected }
{}

/// So the overflow that is named is at the least node that breaks of any list with all affected nodes.
pub fn overflows_are_in_patches()
    ensures { OverflowsAreInPatches }
{}

/// The formula of a node over inputs depends on the records that it reads.
pub fn formulas_depend_on_reads()
    ensures { FormulasDependOnReads }
{}

/// Where the records by which a node is there and those that it reads are the old ones, it is not changed.
pub fn untouched_are_unchanged()
    ensures { UntouchedAreUnchanged }
{}

/// In a workbook each input of a node is a node.
pub fn inputs_are_nodes()
    ensures { InputsAreNodes }
{}
