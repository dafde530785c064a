ghost use Rattle.std.specs.Prelude.{◌≡◌, ◌≢◌, ◌+◌, ◌<◌, ◌≤◌, ℕ, Some, None, IfSome, IsTrue, ◌↔◌};
ghost use Rattle.node_words.specs.Cell.{Cell};
ghost use Rattle.node_words.specs.Places.{IsInBlock, LiesIn};
ghost use Rattle.node_words.specs.shapes.Tree.{root_of, bits_in, child_of, shape_of};
ghost use Rattle.node_words.specs.shapes.Weights.{number_of_trees};
ghost use Rattle.node_words.specs.Walks.{TellsCell};
ghost use Rattle.node_words.specs.Held.{HoldsName, ReachesName, ForHeld, ForReached, Gains, OnlyHeldChanges, AreTrees};

use crate::shapes::{Block, Cell, Name, is_set, octant_with};
use crate::shares::Share;
use crate::stores::{Blocks, NodeStore};
use crate::turns::Steps;
use std::sync::ledger::Ledger;

/// A node at or below a held share, lent with its store. While it lives neither the share nor the
/// store can give anything back.
#[derive(Drop)]
pub struct Under<'a, B: Blocks> {
    store: &'a mut B,
    share: &'a Share,
    name: Name,
}

impl<'a, B: Blocks> Under<'a, B> {
    /// The node of the share.
    #[tactic(auto, using(crate::proofs::HeldLaws::holds_reaches))]
    pub fn of(store: &'a mut B, share: &'a Share) -> Under<'a, B>
        requires held { HoldsName (B.seen store.old).held share.now }
        ensures name { result.name ≡ share.now }
        ensures store { (result.store.ghost_name ≡ store.entry.ghost_name)
            × (result.store.now ≡ store.old) }
        ensures reached { ReachesName (B.seen store.old).held share.now }
    {
        let name = share.name();
        Under { store, share, name }
    }

    /// The level of the node.
    pub fn level(&self) -> u8
        ensures { result ≡ self.now.name.level }
    {
        self.name.level
    }

    /// The bits of the node, a leaf.
    pub fn bits(&mut self) -> u64
        requires reached { ReachesName (B.seen self.old.store.now).held self.old.name }
        requires level { self.old.name.level ≡ 0 }
        ensures bits { ForReached (B.seen self.old.store.now).held self.old.name
            (λ t. result ≡ bits_in t) }
        ensures trees { AreTrees (B.seen self.old.store.now).plan.side
            (B.seen self.old.store.now).held }
        ensures seen { B.seen self.new.store.now ≡ B.seen self.old.store.now }
        ensures rests { B.rests self.old.store.now self.new.store.now }
        ensures same { (self.new.name ≡ self.old.name)
            × (self.new.store.ghost_name ≡ self.old.store.ghost_name) }
    {
        self.store.bits_at(self.name)
    }

    /// Whether the octant has a child.
    pub fn has_child(&mut self, octant: u8) -> bool
        requires reached { ReachesName (B.seen self.old.store.now).held self.old.name }
        requires level { 1 ≤ self.old.name.level }
        requires octant { octant < 8 }
        ensures child { ForReached (B.seen self.old.store.now).held self.old.name
            (λ t. IsTrue result ↔ (root_of (child_of t octant) ≢ None)) }
        ensures trees { AreTrees (B.seen self.old.store.now).plan.side
            (B.seen self.old.store.now).held }
        ensures seen { B.seen self.new.store.now ≡ B.seen self.old.store.now }
        ensures rests { B.rests self.old.store.now self.new.store.now }
        ensures same { (self.new.name ≡ self.old.name)
            × (self.new.store.ghost_name ≡ self.old.store.ghost_name) }
    {
        self.store.child_at(self.name, octant).is_some()
    }

    /// The child in the octant, if there is one. Nothing is known of this node afterwards: where
    /// that is needed, ask [`Under::has_child`] first.
    pub fn child(&mut self, octant: u8) -> Option<Under<'_, B>>
        requires reached { ReachesName (B.seen self.old.store.now).held self.old.name }
        requires level { 1 ≤ self.old.name.level }
        requires octant { octant < 8 }
        ensures some { IfSome result
            (λ c. ForReached (B.seen self.entry.now.store.now).held self.entry.now.name
            (λ t. root_of (child_of t octant) ≡ Some c.name)) }
        ensures none { result ≡ None
            → ForReached (B.seen self.entry.now.store.now).held self.entry.now.name
            (λ t. root_of (child_of t octant) ≡ None) }
        ensures trees { AreTrees (B.seen self.entry.now.store.now).plan.side
            (B.seen self.entry.now.store.now).held }
        ensures seen { IfSome result (λ c. B.seen c.store.now ≡ B.seen self.entry.now.store.now) }
        ensures rests { IfSome result (λ c. B.rests self.entry.now.store.now c.store.now) }
    {
        let at = self.name;
        let share = self.share;
        let store = &mut *self.store;
        match store.child_at(at, octant) {
            Some(name) => Some(Under { store, share, name }),
            None => None,
        }
    }

    /// The child that [`Under::has_child`] told of, in place of this node, whose store it has from
    /// now on.
    pub fn below(self, octant: u8) -> Under<'a, B>
        requires reached { ReachesName (B.seen self.store.now).held self.name }
        requires level { 1 ≤ self.name.level }
        requires octant { octant < 8 }
        requires child { ForReached (B.seen self.store.now).held self.name
            (λ t. root_of (child_of t octant) ≢ None) }
        ensures child { ForReached (B.seen self.entry.store.now).held self.entry.name
            (λ t. root_of (child_of t octant) ≡ Some result.name) }
        ensures trees { AreTrees (B.seen self.entry.store.now).plan.side
            (B.seen self.entry.store.now).held }
        ensures store { result.store.ghost_name ≡ self.entry.store.ghost_name }
        ensures seen { B.seen result.store.now ≡ B.seen self.entry.store.now }
        ensures rests { B.rests self.entry.store.now result.store.now }
    {
        let Under { store, share, name } = self;
        let name = child_name(store, name, octant);
        Under { store, share, name }
    }
}

impl<'a, N: NodeStore> Under<'a, N> {
    /// A share of the node.
    pub fn keep<L: Ledger>(self, steps: &mut Steps<L>) -> Share
        requires reached { ReachesName (N.seen self.store.now).held self.name }
        requires room { number_of_trees (N.seen self.store.now).held ≤ 4095 }
        ensures name { result ≡ self.entry.name }
        ensures held { ForReached (N.seen self.entry.store.now).held self.entry.name
            (λ t. Gains (N.seen self.entry.store.now).held t (N.seen self.exit.0.now).held) }
        ensures only { OnlyHeldChanges (N.seen self.entry.store.now) (N.seen self.exit.0.now) }
        ensures rests { N.rests self.entry.store.now self.exit.0.now }
        ensures turns { steps.new ≡ steps.old + 1 }
    {
        let Under {
            store,
            share: _,
            name,
        } = self;
        store.keep_at(name, steps)
    }
}

/// Whether the cell of the block is set, of the node of the share: read by the nodes on the way
/// down to the cell's leaf.
pub fn has_cell<B: Blocks>(store: &mut B, share: &Share, block: Block, c: Cell) -> bool
    requires held { HoldsName (B.seen store.old).held share.now }
    requires level { (block.level ≡ share.now.level) × (block.level ≤ 10) }
    requires inside { LiesIn 4096 block }
    requires cell { IsInBlock block c }
    ensures set { ForHeld (B.seen store.old).held share.now
        (λ t. TellsCell block (shape_of t) c result) }
    ensures seen { B.seen store.new ≡ B.seen store.old }
    ensures rests { B.rests store.old store.new }
{
    let mut node = Under::of(store, share);
    let mut block = block;
    while 1 <= block.level {
        let octant = octant_with(block, c);
        if !node.has_child(octant) {
            return false;
        }
        node = node.below(octant);
        block = block.child(octant);
    }
    let bits = node.bits();
    is_set(bits, block, c)
}

// The name of the child that is there.
fn child_name<B: Blocks>(store: &mut B, n: Name, octant: u8) -> Name
    requires reached { ReachesName (B.seen store.old).held n }
    requires level { 1 ≤ n.level }
    requires octant { octant < 8 }
    requires child { ForReached (B.seen store.old).held n
        (λ t. root_of (child_of t octant) ≢ None) }
    ensures child { ForReached (B.seen store.old).held n
        (λ t. root_of (child_of t octant) ≡ Some result) }
    ensures trees { AreTrees (B.seen store.old).plan.side (B.seen store.old).held }
    ensures seen { B.seen store.new ≡ B.seen store.old }
    ensures rests { B.rests store.old store.new }
{
    match store.child_at(n, octant) {
        Some(name) => name,
        None => unreachable!(),
    }
}
