ghost use Rattle.core_laws.specs.ShapeStatements.{FullBucketsHaveEnough, GoneTrees, LeafTrees};
ghost use Rattle.core_laws.specs.ShapeStatements.{LiveShapesAreCanonical};
ghost use Rattle.core_laws.specs.ShapeStatements.{LiveShapesHaveTheirBuckets, LiveTreesHaveLevels};
ghost use Rattle.core_laws.specs.ShapeStatements.{NodeTrees, PartsAreStored, PartsAreLive};
ghost use Rattle.core_laws.specs.ShapeStatements.{ShapesAreStoredOnce};

/// The tree of a name by its level, and what stands in a tree.
pub fn trees_stand_by_levels()
    ensures gone { GoneTrees }
    ensures leaf { LeafTrees }
    ensures node { NodeTrees }
    ensures levels { LiveTreesHaveLevels }
    ensures parts { PartsAreLive }
{}

/// Live entries of one shape are one. Their shapes are canonical and stand in their own buckets.
pub fn shapes_are_stored_once()
    ensures canonical { LiveShapesAreCanonical }
    ensures bucket { LiveShapesHaveTheirBuckets }
    ensures once { ShapesAreStoredOnce }
    ensures parts { PartsAreStored }
{}

/// The law of enough: whoever has the shape of each entry of a full bucket has enough different
/// shapes of that bucket.
pub fn full_buckets_have_enough()
    ensures { FullBucketsHaveEnough }
{}
