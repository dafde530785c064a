ghost use Rattle.std.specs.Prelude.{◌≡◌, ◌+◌, ◌≤◌, ℕ, List, Some, slice_index, Option};
ghost use Rattle.node_words.specs.declared.shapes.names.Name.{Name};
ghost use Rattle.node_words.specs.shapes.Shape.{Shape, IsCanonical, branch_of, octant_shape};
ghost use Rattle.node_words.specs.shapes.Buckets.{bucket_of_shape};
ghost use Rattle.node_words.specs.shapes.Tree.{Tree, root_of, child_of, shape_of};
ghost use Rattle.node_words.specs.declared.keys.Key.{Key};
ghost use Rattle.node_words.specs.Keys.{bucket_of_key, IsKeyOf};
ghost use Rattle.node_words.specs.Plans.{Layout, IsPlan, buckets_at};
ghost use Rattle.node_words.specs.Enough.{HasEnough};
ghost use Rattle.std.specs.List.{Contains};
ghost use Rattle.node_words.specs.Held.{
  IsReached,
  HoldsName,
  ReachesName,
  AreTrees,
  AreCanonical,
  AreHeld,
  AreBelow,
  HasChild,
  StoreState,
  Joins,
  OnlyHeldChanges,
};

/// A key's bucket is that of the shape of its node, where its children stand in the buckets of
/// theirs.
pub fn keys_follow_shapes()
    ensures { (buckets : List ℕ) (level : ℕ) (s : Shape) (key : Key) → IsKeyOf buckets level s key
        → bucket_of_key key (slice_index buckets level) ≡ bucket_of_shape buckets level s }
{}

/// What is held is reached, and so are the children of what is reached, each of the level below.
pub fn children_are_reached()
    ensures held { (held : List Tree) (n : Name) → HoldsName held n → ReachesName held n }
    ensures child { (held : List Tree) (t : Tree) (k : ℕ) (m : Name) → IsReached held t
        → root_of (child_of t k) ≡ Some m → ReachesName held m }
    ensures level { (side : ℕ) (held : List Tree) (t : Tree) (k : ℕ) (n m : Name)
        → AreTrees side held → IsReached held t → root_of t ≡ Some n
        → root_of (child_of t k) ≡ Some m → 1 ≤ n.level → m.level + 1 ≡ n.level }
{}

/// A plan has 1 to 4,096 buckets on each of the levels 0 to 10.
pub fn plans_have_buckets()
    ensures some { (p : Layout) (level : ℕ) → IsPlan p → level ≤ 10 → 1 ≤ buckets_at p level }
    ensures few { (p : Layout) (level : ℕ) → IsPlan p → buckets_at p level ≤ 4096 }
{}

/// A list of shapes that contains all of another has enough for a bucket where that one has.
#[tactic(auto, using(crate::specs::Enough::enough_stays))]
pub fn longer_lists_have_enough()
    ensures { (p : Layout) (made more : List Shape) (level bucket : ℕ)
        → ((s : Shape) → Contains made s → Contains more s)
        → HasEnough p made level bucket → HasEnough p more level bucket }
{}

/// A node over children that are held has a canonical shape. For implementers of a store.
pub fn held_children_make_canonical_shapes()
    ensures { (level : ℕ) (held : List Tree) (children : List (Option Name)) (row : ℕ → Tree)
        → AreCanonical held → 1 ≤ level → HasChild children → AreBelow level children
        → AreHeld held children row → IsCanonical level (branch_of (λ k. shape_of (row k))) }
{}

ghost use Rattle.node_words.specs.Gathering.{GainsShare, Gathered, LosesAll, Grows, Fails};
ghost use Rattle.std.proofs.Common.{suc};

/// Whoever gathered a share for each octant of a block has a share of the block once they went into
/// a node, and holds what was held before once they went back.
pub fn gathered_octants_join_or_go_back()
    ensures join { (old mid new : List Tree) (level : ℕ) (target : Shape) (cs : List (Option Name))
        (n : Name) → branch_of (λ k. octant_shape target k) ≡ target → n.level ≡ suc level
        → (a : Gathered old level target cs 8 mid) → Joins mid a.row n new
        → GainsShare old (suc level) target (Some n) new }
    ensures back { (target : Shape) (k level bucket : ℕ) (a b c d : StoreState) (l n : ℕ)
        (cs : List (Option Name)) → Grows target a b
        → Fails (octant_shape target k) level bucket b c → OnlyHeldChanges c d
        → (g : Gathered a.held l target cs n b.held) → LosesAll c.held g.row 8 d.held
        → Fails target level bucket a d }
{}
