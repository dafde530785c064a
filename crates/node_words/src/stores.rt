ghost use Rattle.std.specs.Prelude.{◌≡◌, ◌≢◌, ◌+◌, ◌<◌, ◌≤◌, ℕ, Some, IfOk, IfErr, OnOk, IsOkAnd};
ghost use Rattle.node_words.specs.shapes.Shape.{Leaf, branch_of};
ghost use Rattle.node_words.specs.shapes.Tree.{LeafAt, root_of, bits_in, child_of, shape_of, node_at};
ghost use Rattle.node_words.specs.shapes.Weights.{number_of_trees};
ghost use Rattle.node_words.specs.declared.shapes.names.Name.{Name};
ghost use Rattle.node_words.specs.Held.{StoreState, IsReached, HoldsName, ReachesName, ForHeld, ForReached, Gains, HoldsChildren, ForChildren, HasChild, AreBelow, Joins, OnlyHeldChanges, OnlyMeets, Grants, AreTrees, AreCanonical, AreChildNames, AreChildBits, ReturnsWithin, most_before_release};

use crate::shapes::Name;
use crate::shares::{Full, NodeRefused, Share};
use crate::turns::Steps;
use std::sync::ledger::Ledger;

/// Nodes that can be read. A node may be read while a share of it, or of a node above it, is held.
pub trait Blocks {
    /// The plan, and what is held, made and met. No call changes the plan. Blocks that no call adds
    /// to have made and met nothing, and their plan tells the side alone.
    ghost seen: { Self → StoreState };

    /// Two states of one store that agree in all that no call of this trait or of `NodeStore`
    /// changes.
    ghost rests: { Self → Self → Type 0 };

    /// The bits of a leaf.
    fn bits_at(&mut self, n: Name) -> u64
        requires reached { ReachesName (seen self.old).held n }
        requires level { n.level ≡ 0 }
        ensures bits { ForReached (seen self.old).held n (λ t. result ≡ bits_in t) }
        ensures trees { AreTrees (seen self.old).plan.side (seen self.old).held }
        ensures seen { seen self.new ≡ seen self.old }
        ensures rests { rests self.old self.new };

    /// The name of the child in the octant, where the octant isn't clear.
    fn child_at(&mut self, n: Name, octant: u8) -> Option<Name>
        requires reached { ReachesName (seen self.old).held n }
        requires level { 1 ≤ n.level }
        requires octant { octant < 8 }
        ensures child { ForReached (seen self.old).held n
            (λ t. result ≡ root_of (child_of t octant)) }
        ensures trees { AreTrees (seen self.old).plan.side (seen self.old).held }
        ensures seen { seen self.new ≡ seen self.old }
        ensures rests { rests self.old self.new };

    /// The names of the children by octant, none where an octant is clear.
    fn children_at(&mut self, n: Name) -> [Option<Name>; 8]
        requires reached { ReachesName (seen self.old).held n }
        requires level { 1 ≤ n.level }
        ensures children { ForReached (seen self.old).held n (λ t. AreChildNames t result) }
        ensures trees { AreTrees (seen self.old).plan.side (seen self.old).held }
        ensures seen { seen self.new ≡ seen self.old }
        ensures rests { rests self.old self.new };

    /// The bits of the leaves below a node by octant, 0 where an octant is clear.
    fn leaves_at(&mut self, n: Name) -> [u64; 8]
        requires reached { ReachesName (seen self.old).held n }
        requires level { n.level ≡ 1 }
        ensures leaves { ForReached (seen self.old).held n (λ t. AreChildBits t result) }
        ensures trees { AreTrees (seen self.old).plan.side (seen self.old).held }
        ensures seen { seen self.new ≡ seen self.old }
        ensures rests { rests self.old self.new };

    /// The rest of a state is its own rest.
    ghost rests_itself: { (a : Self) → rests a a };

    /// What rests over one call and over the next rests over both.
    ghost rests_on: { (a b c : Self) → rests a b → rests b c → rests a c };
}

/// A store that keeps each node once and counts the shares of it.
///
/// A node is added where there is none of its content. When one is given up is the store's to say.
pub trait NodeStore: Blocks {
    /// How many shares are held.
    fn held(&self) -> u32
        ensures number { result ≡ number_of_trees (Self.seen self.now).held }
        ensures trees { AreTrees (Self.seen self.now).plan.side (Self.seen self.now).held }
        ensures canonical { AreCanonical (Self.seen self.now).held };

    /// A share of the leaf with these bits, or the bucket that had no room for it.
    fn leaf<L: Ledger>(&mut self, bits: u64, steps: &mut Steps<L>) -> Result<Share, Full>
        requires bits { bits ≢ 0 }
        requires room { number_of_trees (Self.seen self.old).held ≤ 4095 }
        ensures held { IfOk result
            (λ n. Gains (Self.seen self.old).held (LeafAt n bits) (Self.seen self.new).held) }
        ensures level { IfOk result (λ n. n.level ≡ 0) }
        ensures grants { OnOk result
            (Grants (Self.seen self.old) (Leaf bits) (Self.seen self.new)) }
        // A leaf that is held or below a held node is there: it is shared, and no entry is added.
        ensures hit { (n : Name) → IsReached (Self.seen self.old).held (LeafAt n bits)
            → IsOkAnd result
            (λ m. (m ≡ n) × ((Self.seen self.new).made ≡ (Self.seen self.old).made)) }
        ensures full { IfErr result
            (λ e. OnlyMeets (Self.seen self.old) e.level e.bucket (Leaf bits)
            (Self.seen self.new)) }
        ensures full_level { IfErr result (λ e. e.level ≡ 0) }
        ensures rests { Self.rests self.old self.new }
        ensures turns { steps.new ≡ steps.old + 1 };

    /// A share of the node of these children, which move into it, or the bucket that had no room
    /// for it.
    fn node<L: Ledger>(
        &mut self,
        level: u8,
        children: [Option<Share>; 8],
        steps: &mut Steps<L>,
    ) -> Result<Share, NodeRefused>
        requires level { (1 ≤ level) × (level + 2 ≤ (Self.seen self.old).plan.side) }
        requires some { HasChild children }
        requires below { AreBelow level children }
        requires held { HoldsChildren (Self.seen self.old).held children }
        requires room { number_of_trees (Self.seen self.old).held ≤ 4088 }
        ensures held { IfOk result
            (λ n. ForChildren (Self.seen self.old).held children
            (λ row. Joins (Self.seen self.old).held row n (Self.seen self.new).held)) }
        ensures level { IfOk result (λ n. n.level ≡ level) }
        ensures grants { OnOk result
            (ForChildren (Self.seen self.old).held children
            (λ row. Grants (Self.seen self.old) (branch_of (λ k. shape_of (row k)))
            (Self.seen self.new))) }
        // A node of these children that is held or below a held node is there: it is shared, and no
        // entry is added.
        ensures hit { ForChildren (Self.seen self.old).held children
            (λ row. (n : Name) → IsReached (Self.seen self.old).held (node_at n row)
            → IsOkAnd result
            (λ m. (m ≡ n) × ((Self.seen self.new).made ≡ (Self.seen self.old).made))) }
        ensures full { IfErr result
            (λ e. ForChildren (Self.seen self.old).held children
            (λ row. OnlyMeets (Self.seen self.old) e.full.level e.full.bucket
            (branch_of (λ k. shape_of (row k))) (Self.seen self.new))) }
        ensures full_level { IfErr result (λ e. e.full.level ≡ level) }
        ensures back { IfErr result (λ e. e.children ≡ children) }
        ensures rests { Self.rests self.old self.new }
        ensures turns { steps.new ≤ steps.old + 9 };

    /// One more share of the same node.
    fn more<L: Ledger>(&mut self, share: &Share, steps: &mut Steps<L>) -> Share
        requires held { HoldsName (Self.seen self.old).held share.now }
        requires room { number_of_trees (Self.seen self.old).held ≤ 4095 }
        ensures name { result ≡ share.now }
        ensures held { ForHeld (Self.seen self.old).held share.now
            (λ t. Gains (Self.seen self.old).held t (Self.seen self.new).held) }
        ensures only { OnlyHeldChanges (Self.seen self.old) (Self.seen self.new) }
        ensures rests { Self.rests self.old self.new }
        ensures turns { steps.new ≡ steps.old + 1 };

    /// A share of a node that stands below a held one.
    fn keep_at<L: Ledger>(&mut self, n: Name, steps: &mut Steps<L>) -> Share
        requires reached { ReachesName (Self.seen self.old).held n }
        requires room { number_of_trees (Self.seen self.old).held ≤ 4095 }
        ensures name { result ≡ n }
        ensures held { ForReached (Self.seen self.old).held n
            (λ t. Gains (Self.seen self.old).held t (Self.seen self.new).held) }
        ensures only { OnlyHeldChanges (Self.seen self.old) (Self.seen self.new) }
        ensures rests { Self.rests self.old self.new }
        ensures turns { steps.new ≡ steps.old + 1 };

    /// The share is given back. A node whose last share goes gives back its children in the same
    /// way.
    fn back<L: Ledger>(&mut self, share: Share, steps: &mut Steps<L>)
        requires held { HoldsName (Self.seen self.old).held share }
        requires room { number_of_trees (Self.seen self.old).held ≤ most_before_release }
        ensures held { ForHeld (Self.seen self.old).held share
            (λ t. Gains (Self.seen self.new).held t (Self.seen self.old).held) }
        ensures only { OnlyHeldChanges (Self.seen self.old) (Self.seen self.new) }
        ensures rests { Self.rests self.old self.new }
        ensures turns { ForHeld (Self.seen self.old).held share
            (λ t. ReturnsWithin (Self.seen self.new).held (shape_of t) steps.old steps.new) };
}
