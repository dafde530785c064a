ghost use Rattle.std.specs.Prelude.{◌≡◌, ◌<◌, ◌≤◌, ℕ, None, length, slice_set};
ghost use Rattle.node_words.specs.shapes.Tree.{Tree};
ghost use Rattle.node_words.specs.shapes.Weights.{number_of_trees};
ghost use Rattle.node_words.specs.Held.{OnlyHeldChanges, HoldsChildren, ForChildren, name_in};
ghost use Rattle.node_words.specs.Held.{most_before_release};
ghost use Rattle.node_words.specs.Gathering.{LosesAll};

use crate::blocks::shares::back_if;
use node_words::{NodeStore, Share, Steps, end, end_all, take_at};
use std::sync::ledger::Ledger;

/// Puts what may be a share into a place where there is none.
pub fn put(children: &mut [Option<Share>], k: usize, share: Option<Share>)
    requires within { k < length children.old }
    requires empty { name_in children.old k ≡ None }
    ensures { children.new ≡ slice_set children.old k share }
{
    end(std::mem::replace(&mut children[k], share));
}

/// Gives back the shares of a row.
pub fn back_all<N: NodeStore, L: Ledger>(
    store: &mut N,
    children: [Option<Share>; 8],
    steps: &mut Steps<L>,
)
    requires held { HoldsChildren (N.seen store.old).held children }
    requires room { number_of_trees (N.seen store.old).held ≤ most_before_release }
    ensures gone { ForChildren (N.seen store.old).held children
        (λ row. LosesAll (N.seen store.old).held row 8 (N.seen store.new).held) }
    ensures only { OnlyHeldChanges (N.seen store.old) (N.seen store.new) }
    ensures rests { N.rests store.old store.new }
{
    let mut rest = children;
    for k in 0..8usize {
        let share = take_at(&mut rest, k);
        back_if(store, share, steps);
    }
    end_all(rest);
}
