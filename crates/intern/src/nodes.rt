// A share of a node.
ghost use Rattle.std.specs.Prelude.{◌≡◌, ◌+◌, ◌≤◌, None, IfErr, MatchResult};
ghost use Rattle.node_words.specs.shapes.Weights.{number_of_trees};
ghost use Rattle.node_words.specs.Held.{AreBelow, ForChildren, HasChild, HoldsChildren};
ghost use Rattle.node_table.specs.TableStates.{BelongsTo};
ghost use Rattle.intern.specs.Nodes.{InternsNode, NodeIsRefused};

use crate::buckets;
use crate::giving::give_row;
use node_table::{NodeTable, PackedKey, Pass, Place};
use node_words::{Full, Key, NodeRefused, Share, Steps, bucket_of, names_of};
use std::sync::Wait;
use std::sync::ledger::Ledger;

/// A share of the node of these children, which move into it, or the bucket that had no room for it
/// with the children handed back. It takes nine turns at most, for each of which it may wait.
pub fn node<R: Wait, L: Ledger>(
    rt: &R,
    table: &NodeTable,
    pass: &mut Pass,
    level: u8,
    children: [Option<Share>; 8],
    steps: &mut Steps<L>,
) -> Result<Share, NodeRefused>
    requires of { BelongsTo table.now pass.old }
    requires idle { pass.old.view.turn ≡ None }
    requires level { (1 ≤ level) × (level + 2 ≤ table.now.plan.side) }
    requires some { HasChild children }
    requires below { AreBelow level children }
    requires held { HoldsChildren pass.old.view.held children }
    requires room { number_of_trees pass.old.view.held ≤ 4088 }
    ensures of { BelongsTo table.now pass.new }
    ensures taken { ForChildren pass.old.view.held children
        (λ row. MatchResult result (λ n. InternsNode pass.old.view level row n pass.new.view)
        (λ e. NodeIsRefused pass.old.view level row e.full pass.new.view)) }
    ensures back { IfErr result (λ e. e.children ≡ children) }
    ensures turns { steps.new ≤ steps.old + 9 }
{
    let _plan = table.plan();
    pass.tell();
    let names = names_of(&children);
    let key = Key::Node(names);
    let bucket = bucket_of(&key, buckets(table, level));
    let packed = PackedKey::of(&key);
    let mut turn = table.turn(rt, pass, level, bucket, steps);
    match turn.find(&packed) {
        Place::At(slot) => {
            let share = turn.raise(slot);
            pass.tell();
            give_row(rt, table, pass, children, steps);
            Ok(share)
        }
        Place::Free(slot) => Ok(turn.publish(slot, &packed, children)),
        Place::NoRoom => {
            turn.leave();
            let full = Full { level, bucket };
            Err(NodeRefused { full, children })
        }
    }
}
