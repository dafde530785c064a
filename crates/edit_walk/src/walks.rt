ghost use Rattle.std.specs.Prelude.{◌≡◌, ◌≢◌, ◌+◌, ◌*◌, ◌-◌, ◌^◌, ◌<◌, ◌≤◌, ℕ, None, OnOk, OnErr, replicate};
ghost use Rattle.vw_cell.specs.Sums.{sum_below};
ghost use Rattle.node_words.specs.shapes.Weights.{number_of_trees};
ghost use Rattle.node_words.specs.Held.{name_in};
ghost use Rattle.node_words.specs.contents.CellShapes.{shape_with};
ghost use Rattle.edit_walk.specs.cells.Tasks.{MakesSome, MakesCells, ForCells};
ghost use Rattle.edit_walk.specs.Edits.{MakesBlock};
ghost use Rattle.edit_walk.specs.declared.memos.MemoEntry.{MemoEntry};
ghost use Rattle.edit_walk.specs.Memos.{RecallsHeld};
ghost use Rattle.edit_walk.specs.Walks.{walk_at, CanBuild, TookTurns, FoundTurns, WalksBlock, FindsBlock, TellsBlock, WalksOctants};

use crate::blocks::{FullBlocks, back_all, back_if, full_block};
use crate::cells::{Task, Whole};
use crate::memos::{Memo, MemoEntry};
use crate::octants::Octants;
use crate::outcomes::{Told, WalkedBlock, lay, leaf_or_old, node_or_old, taken_up};
use node_words::{Full, Name, NodeStore, Share, Steps, end_all};
use std::sync::ledger::Ledger;

// A share of the block that the task makes, where a cell of it is set, or the full bucket that was
// met.
fn share_of<T: Task, M: Memo<T>, N: NodeStore, L: Ledger>(
    store: &mut N,
    level: u8,
    task: &T,
    full: &mut FullBlocks,
    memo: &mut M,
    steps: &mut Steps<L>,
) -> Result<Option<Share>, Full>
    requires level { (level ≤ 10) × (level + 2 ≤ (N.seen store.old).plan.side) }
    requires task { CanBuild T.makes level task.now
        (walk_at (N.seen store.old) full.old (M.has memo.old)) }
    requires room { number_of_trees (N.seen store.old).held + 9 * level ≤ 4000 }
    ensures walked { WalksBlock T.makes level task.now
        (walk_at (N.seen store.old) full.old (M.has memo.old)) result
        (walk_at (N.seen store.new) full.new (M.has memo.new)) }
    ensures rests { N.rests store.old store.new }
    ensures took { OnOk result (TookTurns 1 (level + 1) (T.mixed level task.now) full.old.share full.new.share
        steps.old steps.new) }
{
    let told = told_of(level, task, memo);
    match build(store, level, task, told, full, memo, steps) {
        Ok(block) => Ok(taken_up(store, block, steps)),
        Err(e) => Err(e),
    }
}

// What is told of the block that the task makes before the store is asked. It waits for nothing, so
// that a block that stands costs no call of what may.
#[inline(always)]
fn told_of<T: Task, M: Memo<T>>(level: u8, task: &T, memo: &M) -> Told
    requires task { MakesSome (T.makes task.now) level }
    ensures told { TellsBlock T.makes level task.now (M.has memo.now) result }
    ensures mixed { result ≡ Told.New → 1 ≤ level
        → 1 + sum_below 8 (T.mixed_in level task.now) ≤ T.mixed level task.now }
{
    match task.whole(level) {
        Whole::Nothing => Told::Standing(None),
        Whole::Old(n) => Told::Standing(Some(n)),
        Whole::All => Told::Filled,
        Whole::Mixed => match memo.find(level, task) {
            Some(kept) => Told::Standing(kept.name),
            None => Told::New,
        },
    }
}

// The block that the task makes, of which this is told, or the full bucket that was met. The walk
// calls itself in `fresh` alone.
#[inline(always)]
#[cycle(walk)]
fn build<T: Task, M: Memo<T>, N: NodeStore, L: Ledger>(
    store: &mut N,
    level: u8,
    task: &T,
    told: Told,
    full: &mut FullBlocks,
    memo: &mut M,
    steps: &mut Steps<L>,
) -> Result<WalkedBlock, Full>
    requires level { (level ≤ 10) × (level + 2 ≤ (N.seen store.old).plan.side) }
    requires task { CanBuild T.makes level task.now
        (walk_at (N.seen store.old) full.old (M.has memo.old)) }
    requires told { TellsBlock T.makes level task.now (M.has memo.old) told }
    requires room { number_of_trees (N.seen store.old).held + 9 * level ≤ 4000 }
    requires mixed { told ≡ Told.New → 1 ≤ level
        → 1 + sum_below 8 (T.mixed_in level task.now) ≤ T.mixed level task.now }
    ensures walked { FindsBlock T.makes level task.now
        (walk_at (N.seen store.old) full.old (M.has memo.old)) result
        (walk_at (N.seen store.new) full.new (M.has memo.new)) }
    ensures rests { N.rests store.old store.new }
    ensures took { FoundTurns (level + 1) (T.mixed level task.now) result full.old.share full.new.share
        steps.old steps.new }
{
    match told {
        Told::Standing(name) => Ok(WalkedBlock::Stands(name)),
        Told::Filled => match full_block(store, level, full, steps) {
            Ok(share) => Ok(WalkedBlock::Made(share)),
            Err(e) => Err(e),
        },
        Told::New => fresh(store, level, task, full, memo, steps),
    }
}

// A block that isn't remembered, and is from here on.
#[inline(never)]
#[cycle(walk)]
fn fresh<T: Task, M: Memo<T>, N: NodeStore, L: Ledger>(
    store: &mut N,
    level: u8,
    task: &T,
    full: &mut FullBlocks,
    memo: &mut M,
    steps: &mut Steps<L>,
) -> Result<WalkedBlock, Full>
    requires level { (level ≤ 10) × (level + 2 ≤ (N.seen store.old).plan.side) }
    requires task { CanBuild T.makes level task.now
        (walk_at (N.seen store.old) full.old (M.has memo.old)) }
    requires room { number_of_trees (N.seen store.old).held + 9 * level ≤ 4000 }
    requires mixed { 1 ≤ level
        → 1 + sum_below 8 (T.mixed_in level task.now) ≤ T.mixed level task.now }
    ensures walked { FindsBlock T.makes level task.now
        (walk_at (N.seen store.old) full.old (M.has memo.old)) result
        (walk_at (N.seen store.new) full.new (M.has memo.new)) }
    ensures rests { N.rests store.old store.new }
    ensures took { FoundTurns (level + 1) (T.mixed level task.now) result full.old.share full.new.share
        steps.old steps.new }
{
    match made(store, level, task, full, memo, steps) {
        Ok(block) => {
            let name = block.name();
            memo.keep(MemoEntry {
                level,
                task: *task,
                name,
            });
            Ok(block)
        }
        Err(e) => Err(e),
    }
}

// A block from its bits or its octants.
#[cycle(walk)]
fn made<T: Task, M: Memo<T>, N: NodeStore, L: Ledger>(
    store: &mut N,
    level: u8,
    task: &T,
    full: &mut FullBlocks,
    memo: &mut M,
    steps: &mut Steps<L>,
) -> Result<WalkedBlock, Full>
    requires level { (level ≤ 10) × (level + 2 ≤ (N.seen store.old).plan.side) }
    requires task { CanBuild T.makes level task.now
        (walk_at (N.seen store.old) full.old (M.has memo.old)) }
    requires room { number_of_trees (N.seen store.old).held + 9 * level ≤ 4000 }
    requires mixed { 1 ≤ level
        → 1 + sum_below 8 (T.mixed_in level task.now) ≤ T.mixed level task.now }
    ensures walked { FindsBlock T.makes level task.now
        (walk_at (N.seen store.old) full.old (M.has memo.old)) result
        (walk_at (N.seen store.new) full.new (M.has memo.new)) }
    ensures rests { N.rests store.old store.new }
    ensures took { FoundTurns (level + 1) (T.mixed level task.now) result full.old.share full.new.share
        steps.old steps.new }
{
    let old = task.old();
    if level == 0 {
        let bits = task.bits(store);
        return leaf_or_old(store, old, bits, steps);
    }
    let mut children: [Option<Share>; 8] = [None, None, None, None, None, None, None, None];
    let mut standing: [Option<Name>; 8] = [None; 8];
    match gather(
        store,
        level,
        task,
        &mut children,
        &mut standing,
        full,
        memo,
        steps,
    ) {
        Ok(()) => node_or_old(store, level, old, children, &standing, steps),
        Err(e) => {
            end_all(children);
            Err(e)
        }
    }
}

// Fills in what the octants are of the block that the task makes: shares that came, and names of
// those that stand.
#[cycle(walk)]
fn gather<T: Task, M: Memo<T>, N: NodeStore, L: Ledger>(
    store: &mut N,
    level: u8,
    task: &T,
    children: &mut [Option<Share>; 8],
    standing: &mut [Option<Name>; 8],
    full: &mut FullBlocks,
    memo: &mut M,
    steps: &mut Steps<L>,
) -> Result<(), Full>
    requires above { 1 ≤ level }
    requires empty { children.old ≡ replicate 8 None }
    requires unnamed { standing.old ≡ replicate 8 None }
    requires level { (level ≤ 10) × (level + 2 ≤ (N.seen store.old).plan.side) }
    requires task { CanBuild T.makes level task.now
        (walk_at (N.seen store.old) full.old (M.has memo.old)) }
    requires room { number_of_trees (N.seen store.old).held + 9 * level ≤ 4000 }
    ensures walked { WalksOctants T.makes level task.now
        (walk_at (N.seen store.old) full.old (M.has memo.old)) children.new standing.new result
        (walk_at (N.seen store.new) full.new (M.has memo.new)) }
    ensures none { OnErr result ((k : ℕ) → k < 8 → name_in children.new k ≡ None) }
    ensures rests { N.rests store.old store.new }
    ensures took { OnOk result (TookTurns 8 level (sum_below 8 (T.mixed_in level task.now)) full.old.share
        full.new.share steps.old steps.new) }
{
    let octants = Octants::of(store, level, *task);
    for k in 0..8usize {
        let part = octants.at(k);
        let told = told_of(level - 1, part, memo);
        let block = if let Told::Standing(name) = told {
            WalkedBlock::Stands(name)
        } else {
            match build(store, level - 1, part, told, full, memo, steps) {
                Ok(block) => block,
                Err(e) => {
                    back_all(store, taken(children), steps);
                    return Err(e);
                }
            }
        };
        lay(children, standing, k, block);
    }
    Ok(())
}

// The row, in whose place none stands.
fn taken(children: &mut [Option<Share>; 8]) -> [Option<Share>; 8]
    ensures row { result ≡ children.old }
    ensures none { (k : ℕ) → k < 8 → name_in children.new k ≡ None }
{
    std::mem::replace(children, [None, None, None, None, None, None, None, None])
}

/// A share of the block that the task makes, where a cell of it is set. A store that met a full
/// bucket holds what it held.
///
/// The memo may tell of blocks that were made before, of trees that are still held: such a block
/// is shared and not walked again. What is made joins the memo.
pub fn rebuild<T: Task, M: Memo<T>, N: NodeStore, L: Ledger>(
    store: &mut N,
    level: u8,
    task: &T,
    memo: &mut M,
    steps: &mut Steps<L>,
) -> Result<Option<Share>, Full>
    requires level { (level ≤ 10) × (level + 2 ≤ (N.seen store.old).plan.side) }
    requires memo { RecallsHeld T.makes (N.seen store.old).held (M.has memo.old) }
    requires task { MakesCells (T.makes task.now) (N.seen store.old).held level }
    requires room { number_of_trees (N.seen store.old).held ≤ 3910 }
    ensures made { ForCells (T.makes task.now) (N.seen store.old).held level
        (λ base cells. MakesBlock level (shape_with level cells) result (N.seen store.old)
        (N.seen store.new)) }
    ensures memo { OnOk result (RecallsHeld T.makes (N.seen store.new).held (M.has memo.new)) }
    ensures rests { N.rests store.old store.new }
    ensures turns { OnOk result
        (steps.new ≤ steps.old + 25 * T.mixed level task.now + 25 * (level + 1)) }
{
    let _held = store.held();
    let mut full = FullBlocks {
        share: None,
        names: [None; 11],
    };
    match share_of(store, level, task, &mut full, memo, steps) {
        Ok(share) => {
            let FullBlocks {
                share: aside,
                names: _,
            } = full;
            back_if(store, aside, steps);
            Ok(share)
        }
        Err(e) => {
            let FullBlocks {
                share: aside,
                names: _,
            } = full;
            back_if(store, aside, steps);
            Err(e)
        }
    }
}
