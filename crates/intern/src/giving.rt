// The shares of children of a node that is held besides are given back.
ghost use Rattle.std.specs.Prelude.{◌≡◌, ◌+◌, ◌≤◌, None};
ghost use Rattle.node_words.specs.shapes.Tree.{Tree, root_of};
ghost use Rattle.node_words.specs.shapes.Weights.{number_of_trees};
ghost use Rattle.node_words.specs.Gathering.{Loses, LosesAll, MayHold};
ghost use Rattle.node_words.specs.Held.{ForChildren, most_before_freeing};
ghost use Rattle.node_table.specs.Acts.{OnlySharesChange};
ghost use Rattle.node_table.specs.TableStates.{BelongsTo};
ghost use Rattle.intern.specs.Nodes.{HoldsBelow, IsHeldBelow};

use node_table::{Lowering, NodeTable, Pass};
use node_words::{Share, Steps, end_all, take_at};
use std::sync::Wait;
use std::sync::ledger::Ledger;

// Gives back the shares of the children, none of which is the last of its node.
pub(crate) fn give_row<R: Wait, L: Ledger>(
    rt: &R,
    table: &NodeTable,
    pass: &mut Pass,
    children: [Option<Share>; 8],
    steps: &mut Steps<L>,
)
    requires of { BelongsTo table.now pass.old }
    requires idle { pass.old.view.turn ≡ None }
    requires held { HoldsBelow pass.old.view.held children }
    requires room { number_of_trees pass.old.view.held ≤ most_before_freeing }
    ensures of { BelongsTo table.now pass.new }
    ensures only { OnlySharesChange pass.old.view pass.new.view }
    ensures loses { ForChildren pass.old.view.held children
        (λ row. LosesAll pass.old.view.held row 8 pass.new.view.held) }
    ensures turns { steps.new ≤ steps.old + 8 }
{
    let mut rest = children;
    for k in 0..8usize {
        let child = take_at(&mut rest, k);
        give_kept(rt, table, pass, child, steps);
    }
    end_all(rest);
}

// Gives back what may be a share of such a child.
fn give_kept<R: Wait, L: Ledger>(
    rt: &R,
    table: &NodeTable,
    pass: &mut Pass,
    child: Option<Share>,
    steps: &mut Steps<L>,
)
    requires of { BelongsTo table.now pass.old }
    requires idle { pass.old.view.turn ≡ None }
    requires kept { IsHeldBelow pass.old.view.held child }
    requires room { number_of_trees pass.old.view.held ≤ most_before_freeing }
    ensures of { BelongsTo table.now pass.new }
    ensures only { OnlySharesChange pass.old.view pass.new.view }
    ensures loses { (t : Tree) → root_of t ≡ child → MayHold pass.old.view.held t
        → Loses pass.old.view.held t pass.new.view.held }
    ensures turns { steps.new ≤ steps.old + 1 }
{
    match child {
        Some(share) => match table.lower_in_turn(rt, pass, share, steps) {
            Lowering::Left => {}
            Lowering::Freed(_children) => unreachable!(),
        },
        None => {}
    }
}
