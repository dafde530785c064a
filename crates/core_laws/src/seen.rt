ghost use Rattle.core_laws.specs.SeenStatements.{FreedNodesGiveTheirChildren, LeavesAreGained};
ghost use Rattle.core_laws.specs.SeenStatements.{LowersAreLost, NodesTakeTheirChildren};
ghost use Rattle.core_laws.specs.SeenStatements.{RaisesAreGained, LiveTreesAreCanonical};
ghost use Rattle.core_laws.specs.SeenStatements.{LiveTreesAreTrees};

/// Whoever raises an entry is seen to gain its tree, and whoever lowers one is seen to lose it;
/// children join a new node, and part from one that is freed.
pub fn holders_are_seen_by_trees()
    ensures raises { RaisesAreGained }
    ensures lowers { LowersAreLost }
    ensures leaf { LeavesAreGained }
    ensures node { NodesTakeTheirChildren }
    ensures frees { FreedNodesGiveTheirChildren }
{}

/// Held trees that stand in a sound state are as a store of nodes promises them.
pub fn live_trees_are_trees()
    ensures trees { LiveTreesAreTrees }
    ensures canonical { LiveTreesAreCanonical }
{}
