ghost use Rattle.core_laws.specs.ReturnStatements.{FreedPartsAreUnheld, HeldShapesFreeNothing};
ghost use Rattle.core_laws.specs.ReturnStatements.{NodesAreFreed, NothingIsFreed, OctantsAreFreed};

/// A node goes and then what only it kept: what is freed are different shapes that are stored no
/// more, and so are part of nothing that is held.
pub fn freed_parts_are_different()
    ensures nothing { NothingIsFreed }
    ensures node { NodesAreFreed }
    ensures octant { OctantsAreFreed }
    ensures within { FreedPartsAreUnheld }
    ensures none { HeldShapesFreeNothing }
{}
