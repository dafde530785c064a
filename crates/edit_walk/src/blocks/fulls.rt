ghost use Rattle.std.specs.Prelude.{◌≡◌, ◌+◌, ◌*◌, ◌-◌, ◌^◌, ◌<◌, ◌≤◌, ℕ, List, Option, Some, None, IfOk, IfErr, OnOk, OnErr, IsTrue, ◌↔◌, max};
ghost use Rattle.node_words.specs.declared.shapes.names.Name.{Name};
ghost use Rattle.node_words.specs.shapes.Tree.{Tree};
ghost use Rattle.node_words.specs.shapes.Weights.{number_of_trees};
ghost use Rattle.node_words.specs.Held.{OnlyHeldChanges};
ghost use Rattle.node_words.specs.Gathering.{Grows};
ghost use Rattle.node_words.specs.contents.CellShapes.{full_shape};
ghost use Rattle.edit_walk.specs.blocks.Blocks.{height, RefusesBlock, HasAside, IsAsideFrom, IsAsideAt, KeepsRest, GainsBeside, HasFull, IsFullBlock, ReachesFull, AreFirstNames, FullBeside, GathersFull};

use crate::blocks::blocks::join;
use crate::blocks::full_blocks::FullBlocks;
use crate::blocks::rows::put;
use node_words::{Blocks, Full, Name, NodeStore, Share, Steps};
use std::sync::ledger::Ledger;

/// A share of the full block of this level. The greatest full block that was made stays held,
/// aside.
///
/// Each level of full blocks is made once, from the one below: its turns are told by how much the
/// block aside grew.
pub(crate) fn full_block<N: NodeStore, L: Ledger>(
    store: &mut N,
    level: u8,
    full: &mut FullBlocks,
    steps: &mut Steps<L>,
) -> Result<Option<Share>, Full>
    requires level { (level ≤ 10) × (level + 2 ≤ (N.seen store.old).plan.side) }
    requires aside { HasAside (N.seen store.old) full.old }
    requires room { number_of_trees (N.seen store.old).held ≤ 4000 }
    ensures ok { IfOk result (λ r. GainsBeside level (full_shape level) r
        (N.seen store.old) full.old (N.seen store.new) full.new) }
    ensures grows { OnOk result (Grows (full_shape level) (N.seen store.old) (N.seen store.new)) }
    ensures full { IfErr result
        (λ e. RefusesBlock (full_shape level) e.level e.bucket (N.seen store.old)
        (N.seen store.new)) }
    ensures rest { OnErr result
        (KeepsRest (N.seen store.old) full.old (N.seen store.new) full.new) }
    ensures rests { N.rests store.old store.new }
    ensures turns { OnOk result
        (steps.new + 16 * height full.old.share ≤ steps.old + 16 * height full.new.share + 1) }
    ensures height { OnOk result (height full.new.share ≤ max (height full.old.share) (level + 1)) }
{
    match raise(store, level, full, steps) {
        Ok(()) => Ok(Some(keep_full(store, level, full, steps))),
        Err(e) => Err(e),
    }
}

// One more share of the full block of this level, which stands first in the one aside.
fn keep_full<N: NodeStore, L: Ledger>(
    store: &mut N,
    level: u8,
    full: &FullBlocks,
    steps: &mut Steps<L>,
) -> Share
    requires level { level ≤ 10 }
    requires aside { HasAside (N.seen store.old) full.now }
    requires reaches { IsAsideFrom level full.now.share }
    requires room { number_of_trees (N.seen store.old).held ≤ 4095 }
    ensures came { GainsBeside level (full_shape level) (Some result)
        (N.seen store.old) full.now (N.seen store.new) full.now }
    ensures only { OnlyHeldChanges (N.seen store.old) (N.seen store.new) }
    ensures rests { N.rests store.old store.new }
    ensures turns { steps.new ≤ steps.old + 1 }
{
    match full.names[level as usize] {
        Some(n) => store.keep_at(n, steps),
        None => unreachable!(),
    }
}

// The names by level of the full blocks that stand first in this one, its own among them.
fn first_names<B: Blocks>(store: &mut B, n: Name) -> [Option<Name>; 11]
    requires full { ReachesFull (B.seen store.old).held n }
    requires level { n.level ≤ 10 }
    ensures names { (t : Tree) → IsFullBlock (B.seen store.old).held t n
        → AreFirstNames result n t }
    ensures seen { B.seen store.new ≡ B.seen store.old }
    ensures rests { B.rests store.old store.new }
{
    let mut names: [Option<Name>; 11] = [None; 11];
    let mut at = n;
    names[n.level as usize] = Some(n);
    while at.level > 0 {
        match store.child_at(at, 0) {
            Some(below) => {
                at = below;
                names[at.level as usize] = Some(at);
            }
            None => unreachable!(),
        }
    }
    names
}

fn reaches(full: &FullBlocks, level: u8) -> bool
    ensures { IsTrue result ↔ IsAsideFrom level full.now.share }
{
    match &full.share {
        Some(share) => level <= share.name().level,
        None => false,
    }
}

// Makes the full blocks from the greatest that there is up to this level.
fn raise<N: NodeStore, L: Ledger>(
    store: &mut N,
    level: u8,
    full: &mut FullBlocks,
    steps: &mut Steps<L>,
) -> Result<(), Full>
    requires level { (level ≤ 10) × (level + 2 ≤ (N.seen store.old).plan.side) }
    requires aside { HasAside (N.seen store.old) full.old }
    requires room { number_of_trees (N.seen store.old).held ≤ 4000 }
    ensures reaches { OnOk result (IsAsideFrom level full.new.share) }
    ensures rest { KeepsRest (N.seen store.old) full.old (N.seen store.new) full.new }
    ensures grows { OnOk result (Grows (full_shape level) (N.seen store.old) (N.seen store.new)) }
    ensures full { IfErr result
        (λ e. RefusesBlock (full_shape level) e.level e.bucket (N.seen store.old)
        (N.seen store.new)) }
    ensures rests { N.rests store.old store.new }
    ensures turns { OnOk result
        (steps.new + 16 * height full.old.share ≤ steps.old + 16 * height full.new.share) }
    ensures height { OnOk result (height full.new.share ≤ max (height full.old.share) (level + 1)) }
{
    if reaches(full, level) {
        return Ok(());
    }
    if level == 0 {
        return full_leaf(store, full, steps);
    }
    match raise(store, level - 1, full, steps) {
        Err(e) => Err(e),
        Ok(()) => match raise_once(store, level, full, steps) {
            Ok(()) => Ok(()),
            Err(e) => Err(e),
        },
    }
}

// The full block of this level, where the greatest is of the level below.
fn raise_once<N: NodeStore, L: Ledger>(
    store: &mut N,
    level: u8,
    full: &mut FullBlocks,
    steps: &mut Steps<L>,
) -> Result<(), Full>
    requires level { (1 ≤ level) × (level ≤ 10) × (level + 2 ≤ (N.seen store.old).plan.side) }
    requires full { (n : Name) × (full.old.share ≡ Some n) × (level ≤ n.level + 1) }
    requires aside { HasAside (N.seen store.old) full.old }
    requires room { number_of_trees (N.seen store.old).held ≤ 4001 }
    ensures reaches { OnOk result (IsAsideFrom level full.new.share) }
    ensures rest { KeepsRest (N.seen store.old) full.old (N.seen store.new) full.new }
    ensures grows { OnOk result (Grows (full_shape level) (N.seen store.old) (N.seen store.new)) }
    ensures full { IfErr result
        (λ e. RefusesBlock (full_shape level) e.level e.bucket (N.seen store.old)
        (N.seen store.new)) }
    ensures rests { N.rests store.old store.new }
    ensures turns { OnOk result
        (steps.new + 16 * height full.old.share ≤ steps.old + 16 * height full.new.share) }
    ensures height { OnOk result (height full.new.share ≤ max (height full.old.share) (level + 1)) }
{
    if reaches(full, level) {
        return Ok(());
    }
    match from_eight(store, level, full, steps) {
        Ok(()) => Ok(()),
        Err(e) => Err(e),
    }
}

fn full_leaf<N: NodeStore, L: Ledger>(
    store: &mut N,
    full: &mut FullBlocks,
    steps: &mut Steps<L>,
) -> Result<(), Full>
    requires none { full.old.share ≡ None }
    requires room { number_of_trees (N.seen store.old).held ≤ 4001 }
    ensures reaches { OnOk result (IsAsideAt 0 full.new.share) }
    ensures rest { KeepsRest (N.seen store.old) full.old (N.seen store.new) full.new }
    ensures grows { OnOk result (Grows (full_shape 0) (N.seen store.old) (N.seen store.new)) }
    ensures full { IfErr result
        (λ e. RefusesBlock (full_shape 0) e.level e.bucket (N.seen store.old) (N.seen store.new)) }
    ensures rests { N.rests store.old store.new }
    ensures turns { steps.new ≤ steps.old + 1 }
{
    match store.leaf(u64::MAX, steps) {
        Ok(share) => {
            let mut names: [Option<Name>; 11] = [None; 11];
            names[0] = Some(share.name());
            full.become_these(FullBlocks {
                share: Some(share),
                names,
            });
            Ok(())
        }
        Err(e) => Err(e),
    }
}

// The full block of this level, from eight shares of the one below.
fn from_eight<N: NodeStore, L: Ledger>(
    store: &mut N,
    level: u8,
    full: &mut FullBlocks,
    steps: &mut Steps<L>,
) -> Result<(), Full>
    requires level { (1 ≤ level) × (level ≤ 10) × (level + 2 ≤ (N.seen store.old).plan.side) }
    requires full { (n : Name) × (full.old.share ≡ Some n) × (n.level + 1 ≡ level) }
    requires aside { HasAside (N.seen store.old) full.old }
    requires room { number_of_trees (N.seen store.old).held ≤ 4001 }
    ensures reaches { OnOk result (IsAsideAt level full.new.share) }
    ensures rest { KeepsRest (N.seen store.old) full.old (N.seen store.new) full.new }
    ensures grows { OnOk result (Grows (full_shape level) (N.seen store.old) (N.seen store.new)) }
    ensures full { IfErr result
        (λ e. RefusesBlock (full_shape level) e.level e.bucket (N.seen store.old)
        (N.seen store.new)) }
    ensures rests { N.rests store.old store.new }
    ensures turns { OnOk result (steps.new ≤ steps.old + 16) }
{
    let none = FullBlocks {
        share: None,
        names: [None; 11],
    };
    let below = std::mem::replace(full, none);
    let children = eight_of(store, below, steps);
    match join(store, level, children, steps) {
        Ok(share) => {
            let names = names_in(store, &share);
            full.become_these(FullBlocks { share, names });
            Ok(())
        }
        Err(e) => Err(e),
    }
}

// The names by level of the full blocks that stand first in a full block, of which this is a share.
fn names_in<B: Blocks>(store: &mut B, share: &Option<Share>) -> [Option<Name>; 11]
    requires full { (n : Name) → share.now ≡ Some n
        → ReachesFull (B.seen store.old).held n × (n.level ≤ 10) }
    ensures names { (n : Name) (t : Tree) → share.now ≡ Some n
        → IsFullBlock (B.seen store.old).held t n → AreFirstNames result n t }
    ensures seen { B.seen store.new ≡ B.seen store.old }
    ensures rests { B.rests store.old store.new }
{
    match share {
        Some(s) => first_names(store, s.name()),
        None => [None; 11],
    }
}

// Eight shares of the full block that was aside: itself, and seven more.
fn eight_of<N: NodeStore, L: Ledger>(
    store: &mut N,
    below: FullBlocks,
    steps: &mut Steps<L>,
) -> [Option<Share>; 8]
    requires full { HasFull below.share }
    requires aside { HasAside (N.seen store.old) below }
    requires room { number_of_trees (N.seen store.old).held ≤ 4001 }
    ensures gathers { GathersFull below result (N.seen store.old) (N.seen store.new) }
    ensures number { number_of_trees (N.seen store.new).held ≡ number_of_trees
        (N.seen store.old).held + 7 }
    ensures only { OnlyHeldChanges (N.seen store.old) (N.seen store.new) }
    ensures rests { N.rests store.old store.new }
    ensures turns { steps.new ≤ steps.old + 7 }
{
    let mut children: [Option<Share>; 8] = [None, None, None, None, None, None, None, None];
    for k in 0..7usize {
        let share = more_of(store, &below, steps);
        put(&mut children, k, share);
    }
    let FullBlocks { share, names: _ } = below;
    put(&mut children, 7, share);
    children
}

fn more_of<N: NodeStore, L: Ledger>(
    store: &mut N,
    below: &FullBlocks,
    steps: &mut Steps<L>,
) -> Option<Share>
    requires full { HasFull below.now.share }
    requires aside { HasAside (N.seen store.old) below.now }
    requires room { number_of_trees (N.seen store.old).held ≤ 4095 }
    ensures came { FullBeside below.now result (N.seen store.old) (N.seen store.new) }
    ensures number { number_of_trees (N.seen store.new).held ≡ number_of_trees
        (N.seen store.old).held + 1 }
    ensures only { OnlyHeldChanges (N.seen store.old) (N.seen store.new) }
    ensures rests { N.rests store.old store.new }
    ensures turns { steps.new ≡ steps.old + 1 }
{
    match &below.share {
        Some(share) => Some(store.more(share, steps)),
        None => unreachable!(),
    }
}
