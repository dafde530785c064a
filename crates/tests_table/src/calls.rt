ghost use Rattle.std.specs.Prelude.{◌≡◌, ◌≢◌, ◌≤◌, ◌<◌, None, [], All, IfSome, false};
ghost use Rattle.node_words.specs.shapes.Weights.{number_of_trees};
ghost use Rattle.node_words.specs.Held.{ForHeld, Gains, HoldsName, SameHeld};
ghost use Rattle.node_table.specs.TableStates.{BelongsTo};
ghost use Rattle.node_table.specs.Closing.{IsSpare};

use node_table::{Lowering, NodeTable, Pass};
use node_words::{Plan, Share, Steps, spend_all};
use std::alloc::Global;
use std::sync::Wait;
use std::sync::ledger::Ledger;
use vox_read::Models;
use vw_cell::Side;

/// Gives the share of a leaf back, and says whether the leaf is freed.
pub fn give<R: Wait, L: Ledger>(
    rt: &R,
    table: &NodeTable,
    pass: &mut Pass,
    share: Share,
    steps: &mut Steps<L>,
) -> bool
    requires of { BelongsTo table.now pass.old }
    requires idle { pass.old.view.turn ≡ None }
    requires held { HoldsName pass.old.view.held share }
    requires leaf { share.level ≡ 0 }
    requires room { number_of_trees pass.old.view.held ≤ 4000 }
    ensures of { BelongsTo table.now pass.new }
    ensures idle { pass.new.view.turn ≡ None }
    ensures log { pass.new.view.log ≡ pass.old.view.log }
    ensures given { ForHeld pass.old.view.held share
        (λ t. Gains pass.new.view.held t pass.old.view.held) }
{
    pass.tell();
    let n = share.name();
    let turn = table.turn(rt, pass, n.level, n.bucket, steps);
    match turn.lower(share) {
        Lowering::Left => false,
        Lowering::Freed(children) => {
            spend_all(children);
            true
        }
    }
}

/// Whether the leaf is taken in this slot, and whether it is freed when its share goes back.
pub fn comes_and_goes<R: Wait, L: Ledger>(
    rt: &R,
    table: &NodeTable,
    pass: &mut Pass,
    bits: u64,
    at: (u8, bool),
    steps: &mut Steps<L>,
) -> bool
    requires of { BelongsTo table.now pass.old }
    requires idle { pass.old.view.turn ≡ None }
    requires bits { bits ≢ 0 }
    requires room { number_of_trees pass.old.view.held ≤ 3999 }
    ensures of { BelongsTo table.now pass.new }
    ensures idle { pass.new.view.turn ≡ None }
    ensures log { pass.new.view.log ≡ pass.old.view.log }
    ensures held { SameHeld pass.old.view.held pass.new.view.held }
{
    match intern::leaf(rt, table, pass, bits, steps) {
        Ok(share) => {
            let slot = share.name().slot;
            let freed = give(rt, table, pass, share, steps);
            slot == at.0 && freed == at.1
        }
        Err(_) => false,
    }
}

/// Ends a pass that holds nothing.
pub fn end(pass: Pass)
    requires held { SameHeld [] pass.view.held }
    requires idle { pass.view.turn ≡ None }
    requires log_idle { pass.view.log.turn ≡ false }
{
    pass.end();
}

/// Ends all passes, and says how many there were.
pub fn ended(table: &NodeTable, mut passes: Vec<Pass>) -> u32
    requires { All (IsSpare table.now) passes.items }
{
    let mut number: u32 = 0;
    while let Some(pass) = passes.pop() {
        number = number.saturating_add(1);
        pass.end();
    }
    passes.destroy_empty();
    number
}

/// A table by this plan, of a world with no model, and its passes.
#[tactic(auto, using(crate::proofs::Giving::new_spare))]
pub fn begun(alloc: Global, plan: &Plan, sessions: u16) -> Option<(NodeTable, Vec<Pass>)>
    requires { (1 ≤ sessions) × (sessions ≤ 64) }
    ensures { IfSome result (λ r. All (IsSpare r.0) r.1.items) }
{
    let models = Models {
        list: Vec::new(alloc),
    };
    match NodeTable::begin(alloc, plan, &models, sessions) {
        Ok(begun) => Some(begun),
        Err(_) => None,
    }
}

// The plan of a world of side 8, with one bucket of so many slots on each level.
fn one_bucket(cap: u16) -> Option<Plan> {
    match Side::new(8) {
        Some(side) => Plan::even(side, 1, cap),
        None => None,
    }
}

/// A table by that plan, and its passes.
pub fn begun_small(alloc: Global, cap: u16, sessions: u16) -> Option<(NodeTable, Vec<Pass>)>
    requires { (1 ≤ sessions) × (sessions ≤ 64) }
    ensures { IfSome result (λ r. All (IsSpare r.0) r.1.items) }
{
    match one_bucket(cap) {
        Some(plan) => begun(alloc, &plan, sessions),
        None => None,
    }
}

/// The pass of a table that has just one.
pub fn only_one(table: &NodeTable, mut passes: Vec<Pass>) -> Option<Pass>
    requires { All (IsSpare table.now) passes.items }
    ensures { IfSome result (IsSpare table.now) }
{
    let Some(pass) = passes.pop() else {
        passes.destroy_empty();
        return None;
    };
    if ended(table, passes) > 0 {
        pass.end();
        return None;
    }
    Some(pass)
}

/// The passes of a table that has just two.
pub fn only_two(table: &NodeTable, mut passes: Vec<Pass>) -> Option<(Pass, Pass)>
    requires { All (IsSpare table.now) passes.items }
    ensures first { IfSome result (λ r. IsSpare table.now r.0) }
    ensures second { IfSome result (λ r. IsSpare table.now r.1) }
{
    let Some(second) = passes.pop() else {
        passes.destroy_empty();
        return None;
    };
    match only_one(table, passes) {
        Some(first) => Some((first, second)),
        None => {
            second.end();
            None
        }
    }
}
