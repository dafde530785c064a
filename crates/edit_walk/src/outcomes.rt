ghost use Rattle.std.specs.Prelude.{◌≡◌, ◌+◌, ◌-◌, ◌<◌, ◌≤◌, ℕ, Some, None, IsTrue};
ghost use Rattle.node_words.specs.shapes.Weights.{number_of_trees};
ghost use Rattle.node_words.specs.Held.{OnlyHeldChanges, ReachesName, name_in};
ghost use Rattle.node_words.specs.declared.shapes.names.Name.{Name};
ghost use Rattle.node_words.specs.descent.Roots.{HasBlock};
ghost use Rattle.edit_walk.specs.Outcomes.{name_of_block, IsLaid, HasBlockFound, TakesUp, TakenTurns, LeafFound, WithinTurns, HasFound, ForFound, NodeFound, HasOctantNames, Fills, FillsIn};

use crate::blocks::{again, are_none, join, leaf, named, put};
use node_words::{
    Blocks, Full, Name, NodeStore, Share, Steps, end_all, leaf_bits, octant_name, same_names,
};
use std::sync::ledger::Ledger;

/// What is told of a block before the store is asked.
#[derive(Clone, Copy)]
pub(crate) enum Told {
    /// It stands below what is held, by this name, or nothing of it is set.
    Standing(Option<Name>),
    /// Every cell of it is set.
    Filled,
    /// Its octants tell, or its bits, and none like it is remembered.
    New,
}

/// What a walk finds a block to be.
pub(crate) enum WalkedBlock {
    /// It stands below what is held, by this name, or nothing of it is set: no share was taken.
    Stands(Option<Name>),
    /// A share of it came.
    Made(Option<Share>),
}

impl WalkedBlock {
    // The name of the block.
    #[inline(always)]
    pub(crate) fn name(&self) -> Option<Name>
        ensures { result ≡ name_of_block self.now }
    {
        match self {
            WalkedBlock::Stands(name) => *name,
            WalkedBlock::Made(share) => named(share),
        }
    }
}

// A share of the block.
pub(crate) fn taken_up<N: NodeStore, L: Ledger>(
    store: &mut N,
    block: WalkedBlock,
    steps: &mut Steps<L>,
) -> Option<Share>
    requires found { HasBlockFound block (N.seen store.old) }
    requires room { number_of_trees (N.seen store.old).held ≤ 4095 }
    ensures took { TakesUp block result (N.seen store.old) (N.seen store.new) }
    ensures only { OnlyHeldChanges (N.seen store.old) (N.seen store.new) }
    ensures rests { N.rests store.old store.new }
    ensures turns { TakenTurns block steps.old steps.new }
{
    match block {
        WalkedBlock::Stands(name) => again(store, name, steps),
        WalkedBlock::Made(share) => share,
    }
}

// Puts an octant that was found into its place.
#[inline(always)]
pub(crate) fn lay(
    children: &mut [Option<Share>; 8],
    standing: &mut [Option<Name>; 8],
    k: usize,
    block: WalkedBlock,
)
    requires within { k < 8 }
    requires empty { name_in children.old k ≡ None }
    ensures { IsLaid block k children.old standing.old children.new standing.new }
{
    match block {
        WalkedBlock::Stands(name) => {
            standing[k] = name;
        }
        WalkedBlock::Made(share) => put(children, k, share),
    }
}

// The leaf with these bits: the old one, where it has them.
#[inline(always)]
pub(crate) fn leaf_or_old<N: NodeStore, L: Ledger>(
    store: &mut N,
    old: Option<Name>,
    bits: u64,
    steps: &mut Steps<L>,
) -> Result<WalkedBlock, Full>
    requires old { HasBlock (N.seen store.old).held 0 old }
    requires room { number_of_trees (N.seen store.old).held ≤ 4095 }
    ensures found { LeafFound old bits result (N.seen store.old) (N.seen store.new) }
    ensures rests { N.rests store.old store.new }
    ensures turns { WithinTurns 1 result steps.old steps.new }
{
    let was = leaf_bits(store, old);
    if was == bits {
        return Ok(WalkedBlock::Stands(old));
    }
    match leaf(store, bits, steps) {
        Ok(share) => Ok(WalkedBlock::Made(share)),
        Err(e) => Err(e),
    }
}

// The block of these octants: the old one, where it has them.
#[inline(always)]
pub(crate) fn node_or_old<N: NodeStore, L: Ledger>(
    store: &mut N,
    level: u8,
    old: Option<Name>,
    children: [Option<Share>; 8],
    standing: &[Option<Name>; 8],
    steps: &mut Steps<L>,
) -> Result<WalkedBlock, Full>
    requires level { (1 ≤ level) × (level + 2 ≤ (N.seen store.old).plan.side) }
    requires old { HasBlock (N.seen store.old).held level old }
    requires octants { HasFound level children standing.now (N.seen store.old) }
    requires room { number_of_trees (N.seen store.old).held ≤ 4000 }
    ensures found { ForFound level children standing.now (N.seen store.old)
        (λ rest full target was. NodeFound rest was level old target result (N.seen store.old)
        (N.seen store.new) full) }
    ensures rests { N.rests store.old store.new }
    ensures turns { WithinTurns 17 result steps.old steps.new }
{
    let _held = store.held();
    if stays(store, level, old, &children, standing) {
        end_all(children);
        return Ok(WalkedBlock::Stands(old));
    }
    let all = filled(store, level, children, standing, steps);
    match join(store, level, all, steps) {
        Ok(share) => Ok(WalkedBlock::Made(share)),
        Err(e) => Err(e),
    }
}

// Whether no share came of these octants, and the old block has them.
#[inline(always)]
fn stays<B: Blocks>(
    store: &mut B,
    level: u8,
    old: Option<Name>,
    children: &[Option<Share>; 8],
    standing: &[Option<Name>; 8],
) -> bool
    requires level { 1 ≤ level }
    requires old { HasBlock (B.seen store.old).held level old }
    ensures none { IsTrue result → (k : ℕ) → k < 8 → name_in children.now k ≡ None }
    ensures names { IsTrue result
        → HasOctantNames (B.seen store.old).held level old standing.now }
    ensures seen { B.seen store.new ≡ B.seen store.old }
    ensures rests { B.rests store.old store.new }
{
    if !are_none(children) {
        return false;
    }
    is_old(store, level, old, standing)
}

// Whether the old block has these octants.
#[inline(always)]
fn is_old<B: Blocks>(
    store: &mut B,
    level: u8,
    old: Option<Name>,
    standing: &[Option<Name>; 8],
) -> bool
    requires level { 1 ≤ level }
    requires old { HasBlock (B.seen store.old).held level old }
    ensures names { IsTrue result
        → HasOctantNames (B.seen store.old).held level old standing.now }
    ensures seen { B.seen store.new ≡ B.seen store.old }
    ensures rests { B.rests store.old store.new }
{
    for k in 0..8usize {
        let part = octant_name(store, level, old, k as u8);
        if !same_names(part, standing[k]) {
            return false;
        }
    }
    true
}

// Shares of the octants that stand, beside those of the others.
#[inline(always)]
fn filled<N: NodeStore, L: Ledger>(
    store: &mut N,
    _level: u8,
    children: [Option<Share>; 8],
    standing: &[Option<Name>; 8],
    steps: &mut Steps<L>,
) -> [Option<Share>; 8]
    requires octants { HasFound _level children standing.now (N.seen store.old) }
    requires room { number_of_trees (N.seen store.old).held ≤ 4000 }
    ensures filled { ForFound _level children standing.now (N.seen store.old)
        (λ rest full target was. Fills rest was (_level - 1) target result
        (N.seen store.new).held full) }
    ensures number { number_of_trees (N.seen store.new).held
        ≤ number_of_trees (N.seen store.old).held + 8 }
    ensures only { OnlyHeldChanges (N.seen store.old) (N.seen store.new) }
    ensures rests { N.rests store.old store.new }
    ensures turns { steps.new ≤ steps.old + 8 }
{
    let mut all = children;
    for k in 0..8usize {
        let name = standing[k];
        fill_in(store, &mut all, k, name, steps);
    }
    all
}

// A share of an octant, where it stands.
#[inline(always)]
fn fill_in<N: NodeStore, L: Ledger>(
    store: &mut N,
    children: &mut [Option<Share>; 8],
    k: usize,
    name: Option<Name>,
    steps: &mut Steps<L>,
)
    requires within { k < 8 }
    requires reached { (n : Name) → name ≡ Some n → ReachesName (N.seen store.old).held n }
    requires empty { (n : Name) → name ≡ Some n → name_in children.old k ≡ None }
    requires room { number_of_trees (N.seen store.old).held ≤ 4095 }
    ensures filled { FillsIn name k children.old children.new (N.seen store.old).held
        (N.seen store.new).held }
    ensures number { number_of_trees (N.seen store.new).held
        ≤ number_of_trees (N.seen store.old).held + 1 }
    ensures only { OnlyHeldChanges (N.seen store.old) (N.seen store.new) }
    ensures rests { N.rests store.old store.new }
    ensures turns { steps.new ≤ steps.old + 1 }
{
    match name {
        Some(n) => {
            let share = store.keep_at(n, steps);
            put(children, k, Some(share));
        }
        None => {}
    }
}
