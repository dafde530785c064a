//! Shares of nodes of a table, by their content: the node that is there already, or a new one in a
//! free slot of its bucket, under the bucket's turn.
//!
//! It touches the table by its turns alone. What each outcome leaves is in `specs/Leaves.antt` and
//! `specs/Nodes.antt`.
#![tactic(auto)]

mod giving;
mod nodes;

ghost use Rattle.std.specs.Prelude.{◌≡◌, ◌≢◌, ◌≤◌, ◌+◌, ℕ, None, MatchResult};
ghost use Rattle.node_words.specs.shapes.Weights.{number_of_trees};
ghost use Rattle.node_words.specs.Held.{name_in};
ghost use Rattle.node_words.specs.Plans.{IsPlan, buckets_at};
ghost use Rattle.node_table.specs.TableStates.{BelongsTo};
ghost use Rattle.intern.specs.Leaves.{InternsLeaf, LeafRefused};

use node_table::{NodeTable, PackedKey, Pass, Place};
use node_words::{Full, Key, Share, Steps, bucket_of};
pub use nodes::node;
use std::sync::Wait;
use std::sync::ledger::Ledger;

/// A share of the leaf with these bits, or the bucket that had no room for it. It takes one turn,
/// for which it may wait.
pub fn leaf<R: Wait, L: Ledger>(
    rt: &R,
    table: &NodeTable,
    pass: &mut Pass,
    bits: u64,
    steps: &mut Steps<L>,
) -> Result<Share, Full>
    requires of { BelongsTo table.now pass.old }
    requires idle { pass.old.view.turn ≡ None }
    requires bits { bits ≢ 0 }
    requires room { number_of_trees pass.old.view.held ≤ 4095 }
    ensures of { BelongsTo table.now pass.new }
    ensures taken { MatchResult result (λ n. InternsLeaf pass.old.view bits n pass.new.view)
        (λ e. LeafRefused pass.old.view bits e pass.new.view) }
    ensures turns { steps.new ≡ steps.old + 1 }
{
    let key = Key::Leaf(bits);
    let bucket = bucket_of(&key, buckets(table, 0));
    let packed = PackedKey::of(&key);
    let mut turn = table.turn(rt, pass, 0, bucket, steps);
    let result = match turn.find(&packed) {
        Place::At(slot) => Ok(turn.raise(slot)),
        Place::Free(slot) => Ok(turn.publish(slot, &packed, no_children())),
        Place::NoRoom => {
            turn.leave();
            Err(Full { level: 0, bucket })
        }
    };
    pass.tell();
    result
}

// How many buckets the level has.
pub(crate) fn buckets(table: &NodeTable, level: u8) -> u16
    requires { level ≤ 10 }
    ensures value { result ≡ buckets_at table.now.plan level }
    ensures some { 1 ≤ result }
    ensures plan { IsPlan table.now.plan }
{
    table.plan().buckets()[usize::from(level)]
}

fn no_children() -> [Option<Share>; 8]
    ensures { (k : ℕ) → name_in result k ≡ None }
{
    [None, None, None, None, None, None, None, None]
}
