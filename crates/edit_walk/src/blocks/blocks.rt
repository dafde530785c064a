ghost use Rattle.std.specs.Prelude.{◌≡◌, ◌+◌, ◌-◌, ◌^◌, ◌<◌, ◌≤◌, ℕ, None, OnOk, IsTrue};
ghost use Rattle.node_words.specs.shapes.Weights.{number_of_trees};
ghost use Rattle.node_words.specs.Held.{HasChild, most_before_release, name_in};
ghost use Rattle.edit_walk.specs.blocks.Blocks.{JoinCame, HasOctants, ForOctants, MakesLeaf};

use crate::blocks::rows::back_all;
use node_words::{Full, NodeRefused, NodeStore, Share, Steps, end_all};
use std::sync::ledger::Ledger;

/// A share of the leaf with these bits, where there are any.
pub fn leaf<N: NodeStore, L: Ledger>(
    store: &mut N,
    bits: u64,
    steps: &mut Steps<L>,
) -> Result<Option<Share>, Full>
    requires room { number_of_trees (N.seen store.old).held ≤ 4095 }
    ensures made { MakesLeaf bits result (N.seen store.old) (N.seen store.new) }
    ensures rests { N.rests store.old store.new }
    ensures turns { steps.new ≤ steps.old + 1 }
{
    if bits == 0 {
        return Ok(None);
    }
    match store.leaf(bits, steps) {
        Ok(share) => Ok(Some(share)),
        Err(full) => Err(full),
    }
}

/// A share of the block of these octants, where some of them isn't clear. The octants go into it,
/// or back.
pub fn join<N: NodeStore, L: Ledger>(
    store: &mut N,
    level: u8,
    children: [Option<Share>; 8],
    steps: &mut Steps<L>,
) -> Result<Option<Share>, Full>
    requires level { (1 ≤ level) × (level + 2 ≤ (N.seen store.old).plan.side) }
    requires octants { HasOctants level children (N.seen store.old) }
    requires room { number_of_trees (N.seen store.old).held ≤ most_before_release }
    ensures joined { ForOctants level children (N.seen store.old)
        (λ rest full target was. JoinCame rest was level target result (N.seen store.old)
        (N.seen store.new) full) }
    ensures rests { N.rests store.old store.new }
    ensures turns { OnOk result (steps.new ≤ steps.old + 9) }
{
    if are_none(&children) {
        end_all(children);
        return Ok(None);
    }
    match store.node(level, children, steps) {
        Ok(share) => Ok(Some(share)),
        Err(refused) => {
            let NodeRefused { full, children } = refused;
            back_all(store, children, steps);
            Err(full)
        }
    }
}

pub(crate) fn are_none(children: &[Option<Share>; 8]) -> bool
    ensures none { IsTrue result → (k : ℕ) → k < 8 → name_in children.now k ≡ None }
    ensures some { ¬ IsTrue result → HasChild children.now }
{
    for k in 0..8usize {
        if children[k].is_some() {
            return false;
        }
    }
    true
}
